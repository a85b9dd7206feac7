//! Standard input.
use crate::counts::raise;
use crate::{Failed, Source};
use std::io::Read;

/// Standard input. It tells nothing of its bytes.
#[derive(Drop)]
pub struct StdSource<'a, R: Input> {
    rt: &'a R,
    reader: R::Reader,
    faults: u64,
}

impl<'a, R: Input> StdSource<'a, R> {
    ghost use Rattle.std.specs.Prelude.{◌≡◌};

    /// The standard input of this runtime, with no fault so far.
    pub fn new(rt: &'a R) -> StdSource<'a, R>
        ensures { result.faults ≡ 0 }
    {
        StdSource {
            rt,
            reader: rt.reader(),
            faults: 0,
        }
    }
}

impl<R: Input> Source for StdSource<'_, R> {
    ghost use Rattle.std.specs.Prelude.{[]};

    ghost tells = { ⊥ };

    ghost left = { λ _. [] };

    ghost faults = { λ s. s.faults };

    fn read(&mut self, into: &mut [u8]) -> Result<usize, Failed> {
        match self.reader.read(into) {
            Ok(count) => Ok(count),
            Err(_) => {
                raise(&mut self.faults);
                Err(Failed)
            }
        }
    }
}
