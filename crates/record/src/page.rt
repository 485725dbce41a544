// What is printed of a record: a text of at most 96 bytes, line by line. Not by `write!`, which may fail where no clause says that there is room.
ghost use Rattle.std.specs.Prelude.{◌≡◌, ◌+◌, ◌≤◌, ◌++◌, length};
ghost use Rattle.record.specs.Page.{line};

use arrayvec::ArrayString;

// Room for any report and any refusal.
pub type Page = ArrayString<96>;

// A line: a word, a number's text, and the line's end.
pub(crate) fn push_line(page: &mut Page, word: &str, number: &str)
    requires { length page.old.bytes + length (line word.now number.now) ≤ 96 }
    ensures { page.new.bytes ≡ page.old.bytes ++ line word.now number.now }
{
    page.push_str(word);
    page.push_str(number);
    page.push_str("\n");
}
