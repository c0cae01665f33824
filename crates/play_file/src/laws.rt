//! Laws of play files, read by every reader that is exact.

ghost use Rattle.std.specs.Prelude.{◌≡◌, ◌≤◌, ℕ, ◌+◌, ◌-◌, List, Result, Ok, Err, length};
ghost use Rattle.frame_specs.specs.Frame.{Frame};
ghost use Rattle.play_specs.specs.Play.{Play as play, IsPlay};
ghost use Rattle.play_specs.specs.PlayText.{play_text};
ghost use Rattle.play_specs.specs.PlayReading.{IsFirstBadLine, IsReadAs, IsExact};
ghost use Rattle.play_specs.specs.WrongReaders.{all_with_frame};
ghost use Rattle.play_file.specs.FileLines.{line_feeds, first_lines};

/// Each file is read as a play or refused at a line: as one of them, and as no other.
pub fn every_file_has_one_answer()
    ensures some { (bytes : List ℕ) → (answer : Result play ℕ) × IsReadAs bytes answer }
    ensures one { (bytes : List ℕ) (one other : Result play ℕ) → IsReadAs bytes one → IsReadAs bytes other → one ≡ other }
{}

/// The text of a play is read as that play and as nothing else. So no two plays have one text.
pub fn the_text_of_a_play_is_read_as_it()
    ensures { (p : play) (answer : Result play ℕ) → IsPlay p → IsReadAs (play_text p) answer → answer ≡ Ok p }
{}

/// A file that is read is its header, a line for each error entry and a line for each action, and
/// nothing stands behind the last line feed.
pub fn no_line_of_a_play_is_passed_over()
    ensures { (bytes : List ℕ) (p : play) → IsReadAs bytes (Ok p) → line_feeds bytes ≡ 1 + length p.errors + length p.actions }
{}

/// A refused file is refused at a line of it. Lines are counted from 1, and what stands behind the last
/// line feed is one too.
pub fn the_refused_line_is_in_the_file()
    ensures counted { (bytes : List ℕ) (n : ℕ) → IsFirstBadLine bytes n → 1 ≤ n }
    ensures inside { (bytes : List ℕ) (n : ℕ) → IsFirstBadLine bytes n → n ≤ line_feeds bytes + 1 }
{}

/// Where a file is refused at a line behind its header, the text of some play begins with the lines in
/// front of that line, which are a play themselves.
pub fn the_lines_before_the_refused_one_are_a_play()
    ensures { (bytes : List ℕ) (n : ℕ) → IsFirstBadLine bytes n → 2 ≤ n → (p : play) × IsReadAs (first_lines (n - 1) bytes) (Ok p) }
{}

/// What stands behind the refused line changes nothing: each file with the same lines up to it is
/// refused at it.
pub fn what_stands_behind_the_refused_line_changes_nothing()
    ensures { (bytes other : List ℕ) (n : ℕ) → IsFirstBadLine bytes n → first_lines n other ≡ first_lines n bytes → IsFirstBadLine other n }
{}

/// No reader is exact that has one fixed frame in the place of each frame.
pub fn a_reader_with_one_fixed_frame_is_wrong()
    ensures { (read : List ℕ → Result play ℕ) (f : Frame) → ¬ IsExact (λ bytes. all_with_frame f (read bytes)) }
{}
