// Lines and columns.

ghost use Rattle.std.specs.Prelude.{◌≤◌, ◌<◌, ◌^◌, ◌-◌, length};
ghost use Rattle.conf_tree.specs.Position.{IsPlace};

/// The line and the column of a byte, both counted from 1, columns in bytes (BIRD User's Guide,
/// "Configuration file format"). The place behind the last byte has one too.
pub fn place(text: &[u8], at: usize) -> (u32, u32)
    requires within { at ≤ length text.now }
    requires short { length text.now < 2 ^ 32 - 1 }
    ensures { IsPlace text.now at result.0 result.1 }
{
    let mut line = 1;
    let mut column = 1;
    for byte in &text[..at] {
        if *byte == b'\n' {
            line += 1;
            column = 1;
        } else {
            column += 1;
        }
    }
    (line, column)
}
