//! Reading the lines of a script one after another.

ghost use Rattle.std.specs.Prelude.{◌≡◌, None, Some, IfSome, Ok, OnOk, MatchOption, MatchResult, true};
ghost use Rattle.script_text.specs.inside.Agreement.{StopsPool};
ghost use Rattle.script_text.specs.PoolLine.{IsBeside, numbers_of_pools};
ghost use Rattle.script_text.specs.Scripts.{start};
ghost use Rattle.script_text.specs.inside.Reading.{words_of, numbers_from, are_pools};
ghost use Rattle.script_text.specs.inside.ScriptReading.{lacks_second, read_command as read_command_line, judged};
ghost use Rattle.script_text.specs.declared.reader.Stop.TheVariants.{OutOfMemory};

use crate::from_words::FromWords;
use crate::line::{is_plain, is_skipped};
use crate::lines::{Line, Pools, Script};
use crate::made_names::MadeNames;
use crate::pool_line::line_numbers_of;
use crate::worker_command::worker_command;
use commons::seq::Seq;
use std::alloc::{AllocError, AllocFailed, Global};

/// The most command lines that a script has.
pub const MAX_COMMANDS: usize = 10_000;

/// Why a line wasn't read.
#[derive(Clone, Copy)]
pub(crate) enum Stop {
    /// The line isn't in the grammar where it stands.
    Fault,
    /// The line gives limits that no pool has.
    BadPool,
    /// A request for memory was refused.
    OutOfMemory,
}

impl From<AllocError> for Stop {
    ghost from_gives = { λ _ e. e ≡ OutOfMemory };

    fn from(_e: AllocError) -> Stop {
        Stop::OutOfMemory
    }
}

impl<T: Drop> From<AllocFailed<T>> for Stop {
    ghost from_gives = { λ _ e. e ≡ OutOfMemory };

    fn from(_e: AllocFailed<T>) -> Stop {
        Stop::OutOfMemory
    }
}

/// What the lines so far have told.
#[derive(Drop)]
pub(crate) struct Reader<C> {
    pools: Option<Pools>,
    made: MadeNames,
    lines: Vec<Line<C>>,
}

/// Whether pools can be made within these limits.
fn can_be_made(pools: &Pools) -> bool
    requires { IfSome pools.now.second (IsBeside pools.now.first) }
    ensures { result ≡ are_pools (numbers_of_pools pools.now) }
{
    match &pools.second {
        None => pools.first.check().is_ok(),
        Some(second) => pools.first.check().is_ok() && second.check().is_ok(),
    }
}

/// The limits that a pool line gives, within which pools can be made.
fn made_pools(knows_second: bool, line: &[u8]) -> Result<Pools, Stop>
    ensures { MatchResult result
        (λ pools. (numbers_from knows_second (words_of line.now) ≡ Some (numbers_of_pools pools))
        × (are_pools (numbers_of_pools pools) ≡ true))
        (λ stop. StopsPool stop (numbers_from knows_second (words_of line.now))) }
{
    let Some(numbers) = line_numbers_of(knows_second, line) else {
        return Err(Stop::Fault);
    };
    let Some(pools) = numbers.pools() else {
        return Err(Stop::BadPool);
    };
    if can_be_made(&pools) {
        Ok(pools)
    } else {
        Err(Stop::BadPool)
    }
}

/// Whether a command is of a second pool that isn't there.
fn lacks_second<C: FromWords>(pools: &Pools, command: &C) -> bool
    ensures { result ≡ lacks_second C.lexicon (numbers_of_pools pools.now) command.now }
{
    command.needs_second() && pools.second.is_none()
}

impl<C: FromWords> Reader<C> {
    ghost use Rattle.script_text.specs.inside.Agreement.{state_of, IsKept, StopsCommand, StopsLine};

    /// Before the first line.
    pub(crate) fn new(alloc: Global) -> Reader<C>
        ensures state { state_of result ≡ start }
        ensures kept { IsKept C.lexicon result }
    {
        Reader {
            pools: None,
            made: MadeNames::new(alloc),
            lines: Vec::new(alloc),
        }
    }

    /// Reads the next line, which has this number.
    pub(crate) fn read_line(&mut self, alloc: Global, number: u32, line: &[u8]) -> Result<(), Stop>
        requires { IsKept C.lexicon self.old }
        ensures read { MatchResult result
            (λ _. judged C.lexicon (state_of self.old) number line.now ≡ Ok (state_of self.new))
            (λ stop. StopsLine stop number (judged C.lexicon (state_of self.old) number line.now)) }
        ensures kept { OnOk result (IsKept C.lexicon self.new) }
    {
        if !is_plain(line) {
            return Err(Stop::Fault);
        }
        if is_skipped(line) {
            return Ok(());
        }
        match self.pools {
            None => {
                self.pools = Some(made_pools(C::knows_second(), line)?);
                Ok(())
            }
            Some(pools) => self.read_command(alloc, &pools, number, line),
        }
    }

    /// Reads a command line, which has this number, of pools within these limits.
    fn read_command(
        &mut self,
        alloc: Global,
        pools: &Pools,
        number: u32,
        line: &[u8],
    ) -> Result<(), Stop>
        requires kept { IsKept C.lexicon self.old }
        requires told { self.old.pools ≡ Some pools.now }
        ensures read { MatchResult result
            (λ _. read_command_line C.lexicon (numbers_of_pools pools.now) (state_of self.old)
            number (words_of line.now) ≡ Some (state_of self.new))
            (λ stop. StopsCommand stop
            (read_command_line C.lexicon (numbers_of_pools pools.now) (state_of self.old) number
            (words_of line.now))) }
        ensures pools { self.new.pools ≡ self.old.pools }
        ensures kept { OnOk result (IsKept C.lexicon self.new) }
    {
        if self.lines.len() >= MAX_COMMANDS {
            return Err(Stop::Fault);
        }
        let Some((worker, command)) = worker_command::<C>(alloc, pools.first.workers, line)? else {
            return Err(Stop::Fault);
        };
        if lacks_second(pools, &command) {
            return Err(Stop::Fault);
        }
        if !self.made.claim(worker, command.names_made())? {
            return Err(Stop::Fault);
        }
        self.lines.push(Line {
            number,
            worker,
            command,
        })?;
        Ok(())
    }

    /// The script, where a pool line was read.
    pub(crate) fn finish(self) -> Option<Script<C>>
        requires { IsKept C.lexicon self }
        ensures { MatchOption result
            (self.pools ≡ None)
            (λ script. (self.pools ≡ Some script.pools) × (script.lines ≡ self.lines.items)) }
    {
        let Reader {
            pools,
            made: _,
            lines,
        } = self;
        let pools = pools?;
        Some(Script {
            pools,
            lines: Seq::new(lines),
        })
    }
}
