use birdcore_top::Status;
use conf_ast::ConfKind;
use script_lines::ScriptKind;
use std::test::Fail;

#[test]
fn a_status_has_a_line_and_a_number(rt: HostRuntime) -> Result<(), Fail> {
    let alloc = rt.alloc();
    let refused = Status::ConfigRefused {
        line: 3,
        column: 15,
        kind: ConfKind::Syntax,
    };
    let unknown = Status::ScriptRefused {
        line: 4,
        kind: ScriptKind::UnknownActor,
    };
    let condition = Status::ScriptRefused {
        line: 12,
        kind: ScriptKind::Expression,
    };
    let name = String::from_str(alloc, "conf")?;
    let table = [
        (
            Status::Usage,
            1,
            "usage: birdcore COMMAND [CONF [SCRIPT]] [--journal N] [--number N] [-q]",
        ),
        (refused, 2, "config 3:15 C2 Syntax"),
        (unknown, 3, "script 4 S2 UnknownActor"),
        (condition, 3, "script 12 S8 Expression"),
        (Status::ReadFault, 4, "read fault"),
        (Status::WriteFault, 5, "write fault"),
        (Status::OutOfMemory, 6, "out of memory"),
        (Status::TooLong { name }, 7, "too long conf"),
    ];
    assert_eq!(rt; Status::Ok.number(), 0);
    for (status, number, line) in table.iter() {
        assert_eq!(rt; status.number(), *number);
        let text = format!(in alloc; "{status}")?;
        assert_eq!(rt; text.as_str(), *line);
    }
    Ok(())
}
