// What a record comes to: the edition, and what its sheet answers after its calls.
ghost use Rattle.std.specs.Prelude.{◌≡◌};
ghost use Rattle.record.specs.Page.{report_text};

use crate::edition::Edition;
use crate::page::{Page, push_line};
use itoa::Buffer;
use sheets::totals::Totals;

#[derive(Clone, Copy, Debug, PartialEq, Eq)]
pub struct Tally {
    pub edition: Edition,
    pub rows: u16,
    pub totals: Totals,
}

impl Tally {
    // The five lines of its report.
    pub fn page(&self) -> Page
        ensures { result.bytes ≡ report_text self.now }
    {
        let mut page = Page::new();
        push_line(
            &mut page,
            "edition ",
            Buffer::new().format(self.edition.number()),
        );
        push_line(&mut page, "rows ", Buffer::new().format(self.rows));
        push_line(&mut page, "speed ", Buffer::new().format(self.totals.speed));
        push_line(&mut page, "along ", Buffer::new().format(self.totals.along));
        push_line(
            &mut page,
            "across ",
            Buffer::new().format(self.totals.across),
        );
        page
    }
}
