//! Limits that are too large to compute, as laws over every text.
#![tactic(auto)]

ghost use Rattle.std.specs.Prelude.{◌≡◌, ℕ, ◌-◌, true, false, nat_lt, nat_le, List, length, Err};
ghost use Rattle.conf_rules.specs.declared.causes.Cause.TheVariants as causes;
ghost use Rattle.conf_rules.specs.declared.limits.TheConstants.{MAX_FILE, MAX_LINES};
ghost use Rattle.conf_rules.specs.Texts.{Bytes};
ghost use Rattle.conf_rules.specs.Recorded.{Recorded};
ghost use Rattle.conf_rules.specs.Sources.{Includes, Where, Line, file_lines, refused_at_line, size_limit};
ghost use Rattle.conf_rules.specs.Rows.{LineRow};
ghost use Rattle.conf_rules.specs.Resolution.{Reader, line_within_limit, is_of_command_line, is_refusal_content, is_past_limit, line_limit};

/// A file past its size is refused with line 0.
#[tactic(auto, unfolding(crate::specs::Sources::size_limit, crate::specs::Sources::file_lines))]
pub fn a_file_past_its_size()
    ensures { (includes : Includes) (at : Where) (place : ℕ) (path text : Bytes)
        → nat_lt MAX_FILE (length text) ≡ true
        → file_lines includes at place (record { path = path; text = text })
        ≡ refused_at_line at path 0 causes.TooLarge }
{}

/// A line of a file before which `MAX_LINES` stand is refused.
#[tactic(auto, unfolding(crate::specs::Resolution::line_limit))]
pub fn a_line_past_the_last()
    ensures { (recorded : Recorded) (reads : Reader) (rows : List LineRow) (line : Line) (number : ℕ)
        → is_of_command_line line.source ≡ false → is_refusal_content line.content ≡ false
        → nat_le MAX_LINES (number - length recorded.asked.lines) ≡ true
        → line_within_limit recorded reads rows line number ≡ Err causes.TooManyLines }
{}
