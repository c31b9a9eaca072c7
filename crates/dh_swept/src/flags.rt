//! A flag for each of so many things.

ghost use Rattle.std.specs.Prelude.{◌≡◌, false, get_or, replicate, set, true, IfOk};

use dh_base::NoMemory;
use std::alloc::Global;
use std::marker::Model;

/// A flag for each of so many things, which is set or not.
#[derive(Drop)]
pub struct Flags {
    inner: Vec<bool>,
}

impl Model for Flags {
    ghost use Rattle.std.specs.Prelude.{Bool, List};

    ghost Value = { List Bool };

    ghost view = { λ f. f.inner.items };
}

/// So many flags, none of them set.
fn no_flags(alloc: Global, count: usize) -> Result<Vec<bool>, NoMemory>
    ensures { IfOk result (λ flags. flags.items ≡ replicate count false) }
{
    let mut flags = Vec::with_capacity(alloc, count)?;
    for i in 0..count {
        flags.push(false)?;
    }
    Ok(flags)
}

/// Sets a flag, where it is there.
fn set_flag(flags: &mut [bool], number: u64)
    ensures { flags.new ≡ set flags.old number true }
{
    let at = number as usize;
    if at < flags.len() {
        flags[at] = true;
    }
}

impl Flags {
    /// So many flags, none of them set.
    pub fn none(alloc: Global, count: usize) -> Result<Flags, NoMemory>
        ensures { IfOk result (λ flags. flags ≡ replicate count false) }
    {
        let inner = no_flags(alloc, count)?;
        Ok(Flags { inner })
    }

    /// Whether a flag is set or is not there.
    pub fn has(&self, number: u64) -> bool
        ensures { result ≡ get_or self.now number true }
    {
        match self.inner.as_slice().get(number as usize) {
            Some(flag) => *flag,
            None => true,
        }
    }

    /// Sets a flag, where it is there.
    pub fn set(&mut self, number: u64)
        ensures { self.new ≡ set self.old number true }
    {
        set_flag(self.inner.as_mut_slice(), number);
    }

    /// The flags, in order.
    pub fn as_slice(&self) -> &[bool]
        ensures { result.now ≡ self.now }
    {
        self.inner.as_slice()
    }
}
