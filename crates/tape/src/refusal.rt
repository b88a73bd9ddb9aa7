ghost use Rattle.std.specs.Prelude.{◌≡◌};
ghost use Rattle.tape.specs.Replies.{refusal_bytes};

use crate::fault::Fault;

/// A fault and the place of the byte at fault, from 0.
#[derive(Clone, Copy, PartialEq, Eq, Debug)]
pub struct Refusal {
    pub fault: Fault,
    pub place: u16,
}

impl Refusal {
    /// The five bytes that tell it.
    pub fn bytes(self) -> [u8; 5]
        ensures { result ≡ refusal_bytes self }
    {
        let [high, low] = self.place.to_be_bytes();
        [b'E', self.fault.layer(), self.fault.number(), high, low]
    }
}
