// RULES Q: the questions of the conversion.
ghost use Rattle.decoder.specs.Calls.{Converts};

use crate::answers::Converted;
use crate::possible::possible;
use crate::record::{Decoder, store_bytes};
use conversion::pictures::{fits, write_picture};

impl Decoder {
    // RULES Q: the questions 2, 6, 10, 11.
    pub fn write_rgb_scaled(
        self,
        store: &[u8],
        index: usize,
        area: &mut [u32],
        w: usize,
        h: usize,
    ) -> Converted
        ensures { Converts self store.now index area.old w h result area.new }
    {
        if !possible(self) {
            return Converted::Refused(2);
        }
        if store.len() < store_bytes(self) {
            return Converted::Refused(6);
        }
        if !(self.sequence.has_sequence_header & (index <= 2)) {
            return Converted::Refused(10);
        }
        if !fits(w, h, area.len()) {
            return Converted::Refused(11);
        }
        write_picture(self.sequence, store, index, area, w, h);
        Converted::Written
    }
}
