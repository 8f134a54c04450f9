// RULES O: opening.
ghost use Rattle.decoder.specs.Calls.{Opens};

use crate::answers::{Opened, Opening};
use crate::headers::{check_header, check_store};
use crate::record::{Decoder, fresh, store_bytes};
use bits::position::LONGEST_STREAM;
use header::store::clear;

impl Decoder {
    // RULES O.2: the questions 1, 3, 4, 5, 6, and the store of an accepted header becomes 0.
    pub fn open(stream: &[u8], store: &mut [u8]) -> Opened
        ensures { Opens stream.now store.old result store.new }
    {
        let d = fresh();
        if LONGEST_STREAM < stream.len() {
            return Opened {
                decoder: d,
                answer: Opening::Refused(1),
            };
        }
        let checked = check_store(d, store.len(), check_header(stream, d));
        if let Some(refusal) = checked.refusal {
            return Opened {
                decoder: checked.decoder,
                answer: Opening::Refused(refusal.number()),
            };
        }
        clear(store, store_bytes(checked.decoder));
        Opened {
            decoder: checked.decoder,
            answer: Opening::Ready,
        }
    }
}
