// The MT103 of the returned details.
ghost use Rattle.std.specs.Prelude.{◌+◌, ◌<◌, length};
ghost use Rattle.message_text.specs.Returns.{ReturnsPut};

use detail_lines::put_detail_return;
use outgoing_number::Outgoing;
use put::Writer;
use register::Register;
use verdict::Details;
use written::Book;

// One for each, by the next reference.
pub fn put_returns(
    w: &mut Writer,
    o: &mut Outgoing,
    book: Book,
    register: Register,
    details: Details,
)
    requires { o.old.count + length details.kept.now < 4294967296 }
    ensures { ReturnsPut o.old o.new book register.entry.text.now details.entry.message.now details.entry.kept.now w.old w.new }
{
    for j in details.kept {
        if j.verdict().is_returned() {
            let r = o.issue();
            put_detail_return(
                w,
                book,
                register.temporary(),
                r.number,
                details.message,
                &j.detail,
            );
        }
    }
}
