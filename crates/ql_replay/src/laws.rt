//! What holds of every book.

ghost use Rattle.ql_replay.specs.Law.{EarlyIsEnough, IsOne, IsSameElsewhere, LinesAreApart, LinesAreRead, LongLinesDiffer, OtherIsPicked, ReplayIsRight};

use ql_code::laws::runs_are_sound;

/// Following a book line by line tells the first line at which it differs from every journal of the code, or the
/// output of the run that it spells.
pub fn replay_is_right()
    ensures { ReplayIsRight }
{
    runs_are_sound();
}

/// What is right of code is right of whatever tells the same.
pub fn verdicts_carry_over()
    ensures { IsSameElsewhere }
{}

/// A book has one first line that differs, or none.
pub fn first_line_is_one()
    ensures { IsOne }
{}

/// What was taken of a book is enough, where the line that differs is among its lines.
pub fn early_is_enough()
    ensures { EarlyIsEnough }
{}

/// Whole lines and a rest have the lines of both.
pub fn lines_are_apart()
    ensures { LinesAreApart }
{}

/// Whether another process can step is told by what the policy turn picks next.
pub fn other_is_picked()
    ensures { OtherIsPicked }
{}

/// A line of over 200 bytes differs from every line.
pub fn long_lines_differ()
    ensures { LongLinesDiffer }
{}

/// Turn lines and head lines are read, and no other lines.
pub fn lines_are_read()
    ensures { LinesAreRead }
{}
