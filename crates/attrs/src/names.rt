ghost use Rattle.std.specs.Prelude.{◌≡◌, map, get_or, []};
ghost use Rattle.std.specs.String.{string_bytes};

use std::marker::Model;

/// The names of the protocols, by their numbers. Contracts see the list of their bytes.
#[derive(Debug, Drop)]
pub struct Names {
    names: Vec<String>,
}

impl Model for Names {
    ghost use Rattle.std.specs.Prelude.{ℕ, List, map};
    ghost use Rattle.std.specs.String.{string_bytes};

    ghost Value = { List (List ℕ) };

    ghost view = { λ held. map string_bytes held.names.items };
}

impl Names {
    /// The names of the protocols from number 0 on. Takes no memory.
    pub fn make(names: Vec<String>) -> Names
        ensures { result ≡ map string_bytes names.items }
    {
        Names { names }
    }

    /// The bytes of the name of this number; past the last one there are none.
    pub fn name(&self, number: u32) -> &[u8]
        ensures { result.now ≡ get_or self.now number [] }
    {
        match self.names.get(number as usize) {
            Some(name) => name.as_bytes(),
            None => &[],
        }
    }
}
