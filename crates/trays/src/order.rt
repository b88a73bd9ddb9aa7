ghost use Rattle.std.specs.Prelude.{◌≡◌};
ghost use Rattle.trays.specs.Permutation.{in_order};

use crate::tray::Tray;

/// Whether the trays are 1, 2, 3 and so on, each as it stands at home.
pub fn is_in_order<T: Tray>(trays: &[T]) -> bool
    ensures { result ≡ in_order T.form trays.now }
{
    trays.iter().enumerate().all(|(i, tray)| tray.stands(i + 1))
}
