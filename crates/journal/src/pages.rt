// A page of the copy goes to the stored charts.
ghost use Rattle.std.specs.Prelude.{◌≡◌, ◌+◌, ◌*◌, ◌≤◌, length};
ghost use Rattle.book.specs.Limits.{page_length};
ghost use Rattle.journal.specs.Journal.{paged};

use crate::Control;
use crate::writes::store_page;
use state::ram::Phase;

// One stored write of the page's bytes, unless the journal is closed.
pub fn write_page(c: Control, charts: &mut [u8], p: usize, page: &[u8]) -> Control
    requires { (page_length * p + page_length ≤ length charts.old) × (length page.now ≡ page_length) }
    ensures { record { control = result; charts = charts.new } ≡ paged c charts.old p page.now }
{
    let Phase::Open = c.phase else {
        return c;
    };
    match store_page(c.fuse, p, charts, page) {
        Some(fuse) => Control { fuse, ..c },
        None => Control::closed(c.stored),
    }
}
