ghost use Rattle.std.specs.Prelude.{◌≡◌, ◌≤◌, Some, IfOk, All};
ghost use Rattle.dts_base.specs.Numbers.{GivesNext, IsBounded};
ghost use Rattle.dts_base.specs.declared.numbers.TheConstants.{MAX_OSC};

use crate::{MAX_OSC, NoMemory, Oscillator, Words};
use std::alloc::Global;
use std::marker::Model;

/// Numbers in memory, which are given one at a time. Past the end the last one is given again, or 0.
#[derive(Debug, Drop)]
struct NumberScript {
    numbers: Vec<u64>,
    at: usize,
    last: u64,
}

impl Model for NumberScript {
    ghost use Rattle.std.specs.Prelude.{◌≤◌, drop, length};
    ghost use Rattle.dts_base.specs.Numbers.{Script};

    ghost Value = { Script };

    ghost view = { λ script. record { left = drop script.at script.numbers.items; last = script.last } };

    ghost invariant = { λ script. script.at ≤ length script.numbers.items };
}

impl NumberScript {
    fn new(alloc: Global, numbers: &[u64]) -> Result<NumberScript, NoMemory>
        ensures script { IfOk result (λ script. script ≡ record { left = numbers.now; last = 0 }) }
    {
        Ok(NumberScript {
            numbers: numbers.to_vec(alloc)?,
            at: 0,
            last: 0,
        })
    }

    fn next(&mut self) -> u64
        ensures gives { GivesNext result self.old self.new }
    {
        if self.at < self.numbers.len() {
            self.last = self.numbers[self.at];
            self.at += 1;
        }
        self.last
    }
}

/// An oscillator in memory, which tells its readings. Past the end of its script it gives the last one
/// again, or 0 where there was none.
#[derive(Debug, Drop)]
pub struct MemoryOscillator {
    script: NumberScript,
    ghost bounded: { IsBounded MAX_OSC script },
}

impl MemoryOscillator {
    ghost use Rattle.dts_base.specs.Memory.{oscillator_script};

    /// An oscillator that gives these readings, each at most 2^60.
    pub fn new(alloc: Global, script: &[u64]) -> Result<MemoryOscillator, NoMemory>
        requires { All (λ reading. reading ≤ MAX_OSC) script.now }
        ensures script { IfOk result (λ o. oscillator_script o ≡ record { left = script.now; last = 0 }) }
    {
        Ok(MemoryOscillator {
            script: NumberScript::new(alloc, script)?,
        })
    }
}

impl Oscillator for MemoryOscillator {
    ghost use Rattle.dts_base.specs.Memory.{oscillator_script};

    ghost readings = { λ o. Some (oscillator_script o) };

    fn read(&mut self) -> u64 {
        self.script.next()
    }
}

/// Words in memory, which are told. Past the end of their script the last one is given again, or 0 where
/// there was none.
#[derive(Debug, Drop)]
pub struct MemoryWords {
    script: NumberScript,
}

impl MemoryWords {
    ghost use Rattle.dts_base.specs.Memory.{words_script};

    /// These words.
    pub fn new(alloc: Global, script: &[u64]) -> Result<MemoryWords, NoMemory>
        ensures script { IfOk result (λ w. words_script w ≡ record { left = script.now; last = 0 }) }
    {
        Ok(MemoryWords {
            script: NumberScript::new(alloc, script)?,
        })
    }
}

impl Words for MemoryWords {
    ghost use Rattle.dts_base.specs.Memory.{words_script};

    ghost words = { λ w. Some (words_script w) };

    fn next(&mut self) -> u64 {
        self.script.next()
    }
}
