ghost use Rattle.std.specs.Prelude.{◌≡◌, ℕ};
ghost use Rattle.conf_rules.specs.declared.criterion.Kind.TheVariants.{Exec};
ghost use Rattle.conf_rules.specs.Results.{Shows};
ghost use Rattle.conf_rules.specs.Texts.{Bytes};
ghost use Rattle.conf_rules.specs.Patterns.{list_takes};
ghost use Rattle.conf_rules.specs.Evaluation.{plain_verdict, criterion_verdict, verdict};
ghost use Rattle.conf_tokens.specs.Seen.{view_as_defined};
ghost use Rattle.conf_match.specs.Evaluated.{takes_user, takes_local_user, Evaluated, Ran, FailsIn, HasRunnerCause, RecordsStatus, evaluation_of_token, evaluation_of_file};

use crate::lists::matches_list;
use conf_rules::{Criteria, Criterion, Kind, ListAnswer, TokenError, TokenSet};
use conf_tokens::{View, expand, fact, user};
use mux_outside::{FileError, Runner};
use std::alloc::Global;

/// Why criteria have no answer.
#[derive(Drop)]
pub enum EvalError {
    /// The runner failed.
    RunFault,
    /// The tokens of a command can't be expanded, or a user isn't known.
    Token(TokenError),
    OutOfMemory,
}

impl From<TokenError> for EvalError {
    ghost from_gives = { λ e d. d ≡ evaluation_of_token e };

    fn from(e: TokenError) -> EvalError {
        match e {
            TokenError::OutOfMemory => EvalError::OutOfMemory,
            other => EvalError::Token(other),
        }
    }
}

impl From<FileError> for EvalError {
    ghost from_gives = { λ e d. d ≡ evaluation_of_file e };

    fn from(e: FileError) -> EvalError {
        match e {
            FileError::OutOfMemory => EvalError::OutOfMemory,
            FileError::Failed => EvalError::RunFault,
        }
    }
}

// Whether a list of patterns takes a name.
fn takes(patterns: &[u8], name: &[u8]) -> bool
    ensures { result ≡ list_takes patterns.now name.now }
{
    match matches_list(patterns, name) {
        ListAnswer::Yes => true,
        _ => false,
    }
}

// Whether a list of patterns takes the user, or else the local user.
fn takes_user(patterns: &[u8], view: &View<'_>) -> Result<bool, TokenError>
    ensures { Shows (λ holds. holds) result (takes_user (view_as_defined view.now) patterns.now) }
{
    let user = user(b'r', view)?;
    Ok(takes(patterns, user))
}

// Whether a list of patterns takes the local user.
fn takes_local_user(patterns: &[u8], view: &View<'_>) -> Result<bool, TokenError>
    ensures { Shows (λ holds. holds) result (takes_local_user (view_as_defined view.now) patterns.now) }
{
    let user = fact(b'u', &view.facts.local_user)?;
    Ok(takes(patterns, user))
}

// Whether a command, expanded, ends with status 0.
fn exec<R: Runner>(
    alloc: Global,
    value: &[u8],
    view: &View<'_>,
    runner: &mut R,
) -> Result<bool, EvalError>
    ensures holds { (status : Bytes → ℕ) → RecordsStatus (R.recorded runner.old) status
        → Evaluated result (plain_verdict status (view_as_defined view.now) Exec value.now).holds }
    ensures ran { (status : Bytes → ℕ)
        → Ran result (R.ran runner.old) (R.ran runner.new)
        (plain_verdict status (view_as_defined view.now) Exec value.now).ran }
    ensures failed { (status : Bytes → ℕ)
        → FailsIn result (R.ran runner.old) (R.ran runner.new)
        (plain_verdict status (view_as_defined view.now) Exec value.now).ran }
    ensures cause { HasRunnerCause result (R.faults runner.old) (R.faults runner.new) }
    ensures recorded { R.recorded runner.new ≡ R.recorded runner.old }
{
    let command = expand(alloc, value, TokenSet::Full, view)?;
    let status = runner.run(command.as_bytes())?;
    Ok(status == 0)
}

// Whether the plain criterion holds.
fn plain<R: Runner>(
    alloc: Global,
    kind: Kind,
    value: &[u8],
    view: &View<'_>,
    runner: &mut R,
) -> Result<bool, EvalError>
    ensures holds { (status : Bytes → ℕ) → RecordsStatus (R.recorded runner.old) status
        → Evaluated result (plain_verdict status (view_as_defined view.now) kind value.now).holds }
    ensures ran { (status : Bytes → ℕ)
        → Ran result (R.ran runner.old) (R.ran runner.new)
        (plain_verdict status (view_as_defined view.now) kind value.now).ran }
    ensures failed { (status : Bytes → ℕ)
        → FailsIn result (R.ran runner.old) (R.ran runner.new)
        (plain_verdict status (view_as_defined view.now) kind value.now).ran }
    ensures cause { HasRunnerCause result (R.faults runner.old) (R.faults runner.new) }
    ensures recorded { R.recorded runner.new ≡ R.recorded runner.old }
{
    match kind {
        Kind::All => Ok(true),
        Kind::Canonical => Ok(false),
        Kind::Final => Ok(view.last),
        Kind::Exec => exec(alloc, value, view, runner),
        Kind::Host => Ok(takes(value, view.name)),
        Kind::OriginalHost => Ok(takes(value, view.original)),
        Kind::Tagged => Ok(takes(value, view.tag)),
        Kind::User => Ok(takes_user(value, view)?),
        Kind::LocalUser => Ok(takes_local_user(value, view)?),
    }
}

// Whether a criterion holds.
fn one<R: Runner>(
    alloc: Global,
    criterion: &Criterion,
    view: &View<'_>,
    runner: &mut R,
) -> Result<bool, EvalError>
    ensures holds { (status : Bytes → ℕ) → RecordsStatus (R.recorded runner.old) status
        → Evaluated result (criterion_verdict status (view_as_defined view.now) criterion.now).holds }
    ensures ran { (status : Bytes → ℕ)
        → Ran result (R.ran runner.old) (R.ran runner.new)
        (criterion_verdict status (view_as_defined view.now) criterion.now).ran }
    ensures failed { (status : Bytes → ℕ)
        → FailsIn result (R.ran runner.old) (R.ran runner.new)
        (criterion_verdict status (view_as_defined view.now) criterion.now).ran }
    ensures cause { HasRunnerCause result (R.faults runner.old) (R.faults runner.new) }
    ensures recorded { R.recorded runner.new ≡ R.recorded runner.old }
{
    let holds = plain(
        alloc,
        criterion.kind,
        criterion.value.as_bytes(),
        view,
        runner,
    )?;
    Ok(if criterion.negated { !holds } else { holds })
}

/// Whether criteria hold, tried from the left to the first one that doesn't; only so far are
/// commands run. The runner's fault comes only where its count rose.
pub fn eval<R: Runner>(
    alloc: Global,
    criteria: &Criteria,
    view: &View<'_>,
    runner: &mut R,
) -> Result<bool, EvalError>
    ensures holds { (status : Bytes → ℕ) → RecordsStatus (R.recorded runner.old) status
        → Evaluated result (verdict status (view_as_defined view.now) criteria.now).holds }
    ensures ran { (status : Bytes → ℕ) → RecordsStatus (R.recorded runner.old) status
        → Ran result (R.ran runner.old) (R.ran runner.new)
        (verdict status (view_as_defined view.now) criteria.now).ran }
    ensures failed { (status : Bytes → ℕ) → RecordsStatus (R.recorded runner.old) status
        → FailsIn result (R.ran runner.old) (R.ran runner.new)
        (verdict status (view_as_defined view.now) criteria.now).ran }
    ensures cause { HasRunnerCause result (R.faults runner.old) (R.faults runner.new) }
    ensures recorded { R.recorded runner.new ≡ R.recorded runner.old }
{
    for criterion in criteria.as_slice() {
        if !one(alloc, criterion, view, runner)? {
            return Ok(false);
        }
    }
    Ok(true)
}
