ghost use Rattle.std.specs.Prelude.{◌≡◌};
ghost use Rattle.trays.specs.Form.{TrayForm, Regular, number_regular, number_tray};

/// A tray as a machine holds it. `form` says what its number and its side are.
pub trait Tray: Copy {
    ghost form: { TrayForm Self };

    // what every form owes
    ghost regular: { Regular form };

    /// The tray of this number as it stands at home; 0 is for no tray.
    fn upright(number: u8) -> Self
        ensures { result ≡ form.upright number };

    /// The tray that a byte stands for.
    fn from_byte(byte: u8) -> Self
        ensures { result ≡ form.read byte };

    /// Its number; 0 is for no tray.
    fn number(&self) -> u8
        ensures { result ≡ form.number self.now };

    /// Whether it is the tray of this number as it stands at home. The number may be above 255.
    fn stands(&self, number: usize) -> bool
        ensures { result ≡ form.stands number self.now };

    /// The tray of this number on the same side.
    fn renumbered(&self, number: u8) -> Self
        ensures { result ≡ form.renumbered number self.now };
}

// A tray without sides is its number.
impl Tray for u8 {
    ghost form = { number_tray };

    ghost regular = { number_regular };

    fn upright(number: u8) -> u8 {
        number
    }

    fn from_byte(byte: u8) -> u8 {
        byte
    }

    fn number(&self) -> u8 {
        *self
    }

    fn stands(&self, number: usize) -> bool {
        *self as usize == number
    }

    fn renumbered(&self, number: u8) -> u8 {
        number
    }
}
