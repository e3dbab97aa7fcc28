//! Where lists are read from.

ghost use Rattle.std.specs.Prelude.{◌≡◌, ℕ, IfOk, List, None, Option};

use std::io;
use std::io::BufRead;

/// Opens what lists are read from, by name. A test may implement its own.
pub trait Inputs {
    // The bytes of the input with a name, where they are known.
    ghost bytes: { Self → List ℕ → Option (List ℕ) } = { λ _ _. None };

    /// What is read.
    type Input: BufRead + Drop;

    /// Opens the input of this name, at its start.
    fn open(&self, name: &str) -> io::Result<Self::Input>
        ensures { IfOk result (λ input.
            Self.Input.remaining input ≡ bytes self.now name.now) };
}
