//! One line of a file: its content, and the outcome.

ghost use Rattle.std.specs.Prelude.{◌≡◌, ◌≤◌, ◌<◌, ◌+◌, [], OnOk, OnErr, IfErr, IfOk, true, false, length, Ok};
ghost use Rattle.conf_rules.specs.Texts.{or_text};
ghost use Rattle.conf_rules.specs.Evaluation.{verdict};
ghost use Rattle.conf_rules.specs.Rows.{word_in, but_none};
ghost use Rattle.conf_tokens.specs.Seen.{view_as_defined};
ghost use Rattle.conf_tokens.specs.Known.{known};
ghost use Rattle.conf_fold.specs.Entries.{content_fits};
ghost use Rattle.conf_reader.specs.Results.{RefusesLine, is_line_fault, resolve_error_at};
ghost use Rattle.conf_rules.specs.Results.{as_error};
ghost use Rattle.conf_fold.specs.Results.{LineEvaluated, GivesLineReading, RanUnless, breaks_line, breaks_off, FailsInLine, FailsAtLine, HasLineCause, HasRunCause};
ghost use Rattle.conf_fold.specs.FoldRepresents.{OnNext, WhereStatusesRecorded, FoldsEntry, Folds, next_row, value_of_key, fold_view_of, entry_so_far};
ghost use Rattle.conf_rules.specs.declared.key.Key.TheVariants as keys;

use super::Fold;
use crate::entries::file_entry;
use conf_match::eval;
use conf_reader::{ConfLine, LineError, refuse};
use conf_rules::{Criteria, Key, LineContent, ResolveError};
use conf_tokens::View;
use mux_outside::{Facts, Runner};
use ssh_fields::Text;
use std::alloc::Global;

// The outcome of a line; an error is reported at its file, whose path is given away for it, and
// its number. It allocates no memory.
fn placed(taken: Result<(), LineError>, file: Text, number: u64) -> Result<(), ResolveError>
    ensures { result ≡ as_error (λ e. resolve_error_at e file number) taken }
{
    match taken {
        Ok(()) => Ok(()),
        Err(e) => Err(e.at(file, number)),
    }
}

// Whether criteria hold; an error is one of a line. It stands apart for its proof alone.
fn evaluate<R: Runner>(
    alloc: Global,
    criteria: &Criteria,
    view: &View<'_>,
    runner: &mut R,
) -> Result<bool, LineError>
    ensures holds { WhereStatusesRecorded (R.recorded runner.old) (λ status.
        LineEvaluated result (verdict status (view_as_defined view.now) criteria.now).holds) }
    ensures ran { WhereStatusesRecorded (R.recorded runner.old) (λ status.
        RanUnless (breaks_line result) (R.ran runner.old) (R.ran runner.new)
        (verdict status (view_as_defined view.now) criteria.now).ran) }
    ensures failed { WhereStatusesRecorded (R.recorded runner.old) (λ status.
        FailsInLine result (R.ran runner.old) (R.ran runner.new)
        (verdict status (view_as_defined view.now) criteria.now).ran) }
    ensures cause { HasLineCause result (R.faults runner.old) (R.faults runner.new) }
    ensures recorded { R.recorded runner.new ≡ R.recorded runner.old }
{
    Ok(eval(alloc, criteria, view, runner)?)
}

impl Fold {
    // Whether criteria hold, and which commands were run to find out.
    pub(crate) fn holds<R: Runner>(
        &self,
        criteria: &Criteria,
        facts: &Facts,
        runner: &mut R,
    ) -> Result<bool, LineError>
        ensures holds { WhereStatusesRecorded (R.recorded runner.old) (λ status.
            LineEvaluated result (verdict status (fold_view_of self.now (known facts.now))
            criteria.now).holds) }
        ensures ran { WhereStatusesRecorded (R.recorded runner.old) (λ status.
            RanUnless (breaks_line result) (R.ran runner.old) (R.ran runner.new)
            (verdict status (fold_view_of self.now (known facts.now)) criteria.now).ran) }
        ensures failed { WhereStatusesRecorded (R.recorded runner.old) (λ status.
            FailsInLine result (R.ran runner.old) (R.ran runner.new)
            (verdict status (fold_view_of self.now (known facts.now)) criteria.now).ran) }
        ensures cause { HasLineCause result (R.faults runner.old) (R.faults runner.new) }
        ensures recorded { R.recorded runner.new ≡ R.recorded runner.old }
    {
        let host = self.host()?;
        let name = match &self.name {
            None => host.as_bytes(),
            Some(name) => name.as_bytes(),
        };
        let view = View {
            original: self.original.as_bytes(),
            host: host.as_bytes(),
            jump: self.jump(),
            tag: self.text(Key::Tag).unwrap_or(b""),
            port: self.settings.port(),
            user: self.text(Key::User),
            alias: self.text(Key::HostKeyAlias),
            facts,
            last: self.name.is_some(),
            name,
        };
        evaluate(self.alloc, criteria, &view, runner)
    }

    // The jump, or nothing.
    pub(crate) fn jump(&self) -> &[u8]
        ensures { result.now ≡ or_text [] (but_none (word_in (value_of_key keys.ProxyJump self.now))) }
    {
        self.settings.named_word(Key::ProxyJump).unwrap_or(b"")
    }

    // Whether the block of criteria applies, which are evaluated only on an active line.
    pub(crate) fn tests<R: Runner>(
        &self,
        active: bool,
        criteria: &Criteria,
        facts: &Facts,
        runner: &mut R,
    ) -> Result<bool, LineError>
        ensures held { WhereStatusesRecorded (R.recorded runner.old) (λ status. active ≡ true
            → LineEvaluated result (verdict status (fold_view_of self.now (known facts.now))
            criteria.now).holds) }
        ensures idle { active ≡ false → result ≡ Ok false }
        ensures ran { WhereStatusesRecorded (R.recorded runner.old) (λ status. active ≡ true
            → RanUnless (breaks_line result) (R.ran runner.old) (R.ran runner.new)
            (verdict status (fold_view_of self.now (known facts.now)) criteria.now).ran) }
        ensures failed { WhereStatusesRecorded (R.recorded runner.old) (λ status. active ≡ true
            → FailsInLine result (R.ran runner.old) (R.ran runner.new)
            (verdict status (fold_view_of self.now (known facts.now)) criteria.now).ran) }
        ensures quiet { active ≡ false → R.ran runner.new ≡ R.ran runner.old }
        ensures cause { HasLineCause result (R.faults runner.old) (R.faults runner.new) }
        ensures recorded { R.recorded runner.new ≡ R.recorded runner.old }
    {
        if active {
            self.holds(criteria, facts, runner)
        } else {
            Ok(false)
        }
    }

    // Applies the content of a line of a file.
    pub(crate) fn take<R: Runner>(
        &mut self,
        entry: LineContent,
        line: &ConfLine,
        facts: &Facts,
        runner: &mut R,
    ) -> Result<(), LineError>
        requires known { line.now.opens ≡ false → line.now.depth < length self.old.applies }
        requires opened { line.now.opens ≡ true → line.now.depth ≤ length self.old.applies }
        requires fits { content_fits entry ≡ true }
        ensures folds { OnNext (known facts.now) (R.recorded runner.old) self.old line.now
            (λ recorded pass rows blocks place l. entry_so_far self.old line.now ≡ Ok entry
            → FoldsEntry recorded pass rows blocks line.now place l result self.new) }
        ensures ran { OnNext (known facts.now) (R.recorded runner.old) self.old line.now
            (λ recorded pass rows blocks place l. entry_so_far self.old line.now ≡ Ok entry
            → RanUnless (breaks_line result) (R.ran runner.old) (R.ran runner.new)
            (next_row recorded pass rows place l).ran) }
        ensures failed { OnNext (known facts.now) (R.recorded runner.old) self.old line.now
            (λ recorded pass rows blocks place l. entry_so_far self.old line.now ≡ Ok entry
            → FailsInLine result (R.ran runner.old) (R.ran runner.new)
            (next_row recorded pass rows place l).ran) }
        ensures cause { HasLineCause result (R.faults runner.old) (R.faults runner.new) }
        ensures depth { OnOk result (length self.new.applies ≡ line.now.depth + 1) }
        ensures unchanged { OnErr result (self.new.settings ≡ self.old.settings) }
        ensures recorded { R.recorded runner.new ≡ R.recorded runner.old }
    {
        let depth = line.depth as usize;
        match entry {
            LineContent::Host(patterns) => {
                let applies = self.names_it(&patterns);
                self.open(depth, applies)?;
                Ok(())
            }
            LineContent::Match(criteria) => {
                let active = self.all_apply(depth);
                let applies = self.tests(active, &criteria, facts, runner)?;
                self.ask(&criteria);
                self.open(depth, applies)?;
                Ok(())
            }
            LineContent::Gives(key, value) => {
                let active = self.is_active(depth, line.opens);
                self.enter(depth, line.opens)?;
                self.give(key, value, active)?;
                Ok(())
            }
            LineContent::Nothing => {
                self.enter(depth, line.opens)?;
                Ok(())
            }
        }
    }

    /// Applies one line of a file, after those applied so far: `opens` where it is the first of its
    /// reading of the file, which lies at most as deep as files are open. A refusal is that of the
    /// line; settings stay. Criteria of an active Match line are evaluated here, and the runner's
    /// fault comes only where its count rose, and always there: the memory for a refusal is
    /// allocated before a command is run.
    pub fn line<R: Runner>(
        &mut self,
        line: &ConfLine,
        facts: &Facts,
        runner: &mut R,
    ) -> Result<(), ResolveError>
        requires known { line.now.opens ≡ false → line.now.depth < length self.old.applies }
        requires opened { line.now.opens ≡ true → line.now.depth ≤ length self.old.applies }
        ensures folds { OnNext (known facts.now) (R.recorded runner.old) self.old line.now
            (λ recorded pass rows blocks place l.
            Folds recorded pass rows blocks line.now place l result self.new) }
        ensures ran { OnNext (known facts.now) (R.recorded runner.old) self.old line.now
            (λ recorded pass rows blocks place l.
            RanUnless (breaks_off result) (R.ran runner.old) (R.ran runner.new)
            (next_row recorded pass rows place l).ran) }
        ensures failed { OnNext (known facts.now) (R.recorded runner.old) self.old line.now
            (λ recorded pass rows blocks place l.
            FailsAtLine line.now.file line.now.number result (R.ran runner.old) (R.ran runner.new)
            (next_row recorded pass rows place l).ran) }
        ensures cause { HasRunCause result (R.faults runner.old) (R.faults runner.new) }
        ensures depth { OnOk result (length self.new.applies ≡ line.now.depth + 1) }
        ensures unchanged { OnErr result (self.new.settings ≡ self.old.settings) }
        ensures recorded { R.recorded runner.new ≡ R.recorded runner.old }
    {
        let entry = match self.said(line) {
            Ok(entry) => entry,
            Err(e) => return Err(self.refused(line, e)),
        };
        let Ok(file) = Text::copy(self.alloc, line.file.as_bytes()) else {
            return Err(ResolveError::OutOfMemory);
        };
        placed(self.take(entry, line, facts, runner), file, line.number)
    }

    // The content of a line after those given so far.
    #[tactic(auto, unfolding(crate::specs::FoldRepresents::entry_so_far))]
    pub(crate) fn said(&self, line: &ConfLine) -> Result<LineContent, LineError>
        ensures fits { IfOk result (λ entry. content_fits entry ≡ true) }
        ensures read { GivesLineReading result (entry_so_far self.now line.now) }
        ensures plain { IfErr result (λ e. is_line_fault e ≡ false) }
    {
        file_entry(
            self.alloc,
            self.text(Key::IgnoreUnknown),
            line.keyword.as_bytes(),
            line.rest.as_bytes(),
        )
    }

    // The refusal of a line.
    pub(crate) fn refused(&self, line: &ConfLine, error: LineError) -> ResolveError
        ensures { RefusesLine error line.now.file line.now.number result }
    {
        refuse(self.alloc, line.file.as_bytes(), line.number, error)
    }
}
