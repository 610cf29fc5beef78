ghost use Rattle.std.specs.Prelude.{◌≡◌, List, [], Ok, IfErr};
ghost use Rattle.conf_rules.specs.Rows.{LineRow, Pass, First};
ghost use Rattle.conf_rules.specs.Resolution.{all_rows, execs, refusal_in};
ghost use Rattle.conf_rules.specs.ReadOrder.{all_reads, read_once};
ghost use Rattle.conf_tokens.specs.Known.{known};
ghost use Rattle.conf_match.specs.Evaluated.{RanAll};
ghost use Rattle.conf_fold.specs.Results.{RanUnless, breaks_off};
ghost use Rattle.conf_fold.specs.FoldRepresents.{FoldRepresents};
ghost use Rattle.conf_fold.specs.Begins.{asked_rows};
ghost use Rattle.conf_resolve.specs.PassGives.{Commands, commands, PassBegins, PassGives, final_rows, BothPass, Resolved};
ghost use Rattle.conf_resolve.specs.Causes.{HasCauses};
ghost use Rattle.conf_resolve.specs.Faults.{FaultStands, NoneFails};
ghost use Rattle.conf_resolve.specs.Readings.{ReadsUnless};
ghost use Rattle.conf_resolve.specs.Recording.{WhereRecorded};

use conf_fold::Fold;
use conf_options::Settings;
use conf_reader::LineReader;
use conf_rules::{Asked, ResolveError};
use mux_outside::{Facts, Files, Runner};
use std::alloc::Global;

// Gives all lines of files to a fold.
fn pass<F: Files, R: Runner>(
    alloc: Global,
    asked: &Asked,
    facts: &Facts,
    fold: &mut Fold,
    files: &mut F,
    runner: &mut R,
) -> Result<(), ResolveError>
    ensures passes { WhereRecorded asked.now (known facts.now) (F.recorded files.old) (R.recorded runner.old)
        (λ recorded. (pass : Pass) (rows : List LineRow) → PassBegins recorded pass fold.old rows
        → PassGives recorded pass rows fold.new result) }
    ensures ran { WhereRecorded asked.now (known facts.now) (F.recorded files.old) (R.recorded runner.old)
        (λ recorded. (pass : Pass) (rows : List LineRow) (before : Commands)
        → PassBegins recorded pass fold.old rows → RanAll before (R.ran runner.old) (commands rows)
        → RanUnless (breaks_off result) before (R.ran runner.new)
        (commands (final_rows recorded pass rows))) }
    ensures fault { WhereRecorded asked.now (known facts.now) (F.recorded files.old) (R.recorded runner.old)
        (λ recorded. (pass : Pass) (rows : List LineRow) (before : Commands)
        → PassBegins recorded pass fold.old rows → RanAll before (R.ran runner.old) (commands rows)
        → IfErr result (λ e. FaultStands recorded (final_rows recorded pass rows) e before
        (R.ran runner.new) (F.failed files.old) (F.failed files.new))) }
    ensures failed { WhereRecorded asked.now (known facts.now) (F.recorded files.old) (R.recorded runner.old)
        (λ recorded. NoneFails result (F.failed files.old) (F.failed files.new)) }
    ensures noted { WhereRecorded asked.now (known facts.now) (F.recorded files.old) (R.recorded runner.old)
        (λ recorded. ReadsUnless (read_once recorded recorded.asked.from) result (F.readings files.old)
        (F.readings files.new)) }
    ensures cause { HasCauses result (F.faults files.old) (F.faults files.new) (R.faults runner.old)
        (R.faults runner.new) }
    ensures files { F.recorded files.new ≡ F.recorded files.old }
    ensures runner { R.recorded runner.new ≡ R.recorded runner.old }
{
    let mut reader = LineReader::new(alloc, asked, facts)?;
    while let Some(line) = reader.next(files)? {
        fold.line(&line, facts, runner)?;
    }
    Ok(())
}

// Gives all lines of files to a fold, and once more where a line asks for it.
fn passes<F: Files, R: Runner>(
    alloc: Global,
    asked: &Asked,
    facts: &Facts,
    fold: &mut Fold,
    files: &mut F,
    runner: &mut R,
) -> Result<(), ResolveError>
    ensures passes { WhereRecorded asked.now (known facts.now) (F.recorded files.old) (R.recorded runner.old)
        (λ recorded. FoldRepresents recorded First fold.old (asked_rows recorded) []
        → refusal_in (asked_rows recorded) ≡ None → BothPass recorded fold.new result) }
    ensures ran { WhereRecorded asked.now (known facts.now) (F.recorded files.old) (R.recorded runner.old)
        (λ recorded. FoldRepresents recorded First fold.old (asked_rows recorded) []
        → refusal_in (asked_rows recorded) ≡ None
        → RanUnless (breaks_off result) (R.ran runner.old) (R.ran runner.new) (execs recorded)) }
    ensures fault { WhereRecorded asked.now (known facts.now) (F.recorded files.old) (R.recorded runner.old)
        (λ recorded. FoldRepresents recorded First fold.old (asked_rows recorded) []
        → refusal_in (asked_rows recorded) ≡ None
        → IfErr result (λ e.
        FaultStands recorded (all_rows recorded) e (R.ran runner.old) (R.ran runner.new)
        (F.failed files.old) (F.failed files.new))) }
    ensures failed { WhereRecorded asked.now (known facts.now) (F.recorded files.old) (R.recorded runner.old)
        (λ recorded. NoneFails result (F.failed files.old) (F.failed files.new)) }
    ensures noted { WhereRecorded asked.now (known facts.now) (F.recorded files.old) (R.recorded runner.old)
        (λ recorded. FoldRepresents recorded First fold.old (asked_rows recorded) []
        → refusal_in (asked_rows recorded) ≡ None
        → ReadsUnless (all_reads recorded) result (F.readings files.old) (F.readings files.new)) }
    ensures cause { HasCauses result (F.faults files.old) (F.faults files.new) (R.faults runner.old)
        (R.faults runner.new) }
    ensures files { F.recorded files.new ≡ F.recorded files.old }
    ensures runner { R.recorded runner.new ≡ R.recorded runner.old }
{
    pass(alloc, asked, facts, fold, files, runner)?;
    if fold.second()? {
        pass(alloc, asked, facts, fold, files, runner)
    } else {
        Ok(())
    }
}

/// The settings of the command line and of all files that are asked for, or the first refusal in
/// reading order. Exactly the commands are run that the criteria of active `Match` lines reach, and
/// exactly the files are read that the lines name, in their order, once in each pass. A fault comes
/// only if the count of faults of `files` or `runner` rose, and no rise goes unreported, nor is
/// reported as out of memory. A failed read is reported at an Include line that looks at the path
/// that failed, or at line 0 of this path, a file that no line includes. A command that could not
/// be run is reported at the line that asks for it.
pub fn resolve<F: Files, R: Runner>(
    alloc: Global,
    asked: &Asked,
    facts: &Facts,
    files: &mut F,
    runner: &mut R,
) -> Result<Settings, ResolveError>
    ensures exact { WhereRecorded asked.now (known facts.now) (F.recorded files.old) (R.recorded runner.old)
        (λ recorded. Resolved recorded result) }
    ensures ran { WhereRecorded asked.now (known facts.now) (F.recorded files.old) (R.recorded runner.old)
        (λ recorded. RanUnless (breaks_off result) (R.ran runner.old) (R.ran runner.new) (execs recorded)) }
    ensures fault { WhereRecorded asked.now (known facts.now) (F.recorded files.old) (R.recorded runner.old)
        (λ recorded. IfErr result (λ e.
        FaultStands recorded (all_rows recorded) e (R.ran runner.old) (R.ran runner.new)
        (F.failed files.old) (F.failed files.new))) }
    ensures failed { WhereRecorded asked.now (known facts.now) (F.recorded files.old) (R.recorded runner.old)
        (λ recorded. NoneFails result (F.failed files.old) (F.failed files.new)) }
    ensures noted { WhereRecorded asked.now (known facts.now) (F.recorded files.old) (R.recorded runner.old)
        (λ recorded.
        ReadsUnless (all_reads recorded) result (F.readings files.old) (F.readings files.new)) }
    ensures cause { HasCauses result (F.faults files.old) (F.faults files.new) (R.faults runner.old)
        (R.faults runner.new) }
    ensures files { F.recorded files.new ≡ F.recorded files.old }
    ensures runner { R.recorded runner.new ≡ R.recorded runner.old }
{
    let mut fold = Fold::new(alloc, asked)?;
    passes(alloc, asked, facts, &mut fold, files, runner)?;
    Ok(fold.settings())
}
