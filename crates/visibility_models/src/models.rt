//! Which models are strict.
ghost use Rattle.std.specs.Prelude.{◌≡◌};
ghost use Rattle.visibility_models.specs.Searches.{is_strict_model};

use home_types::Visibility;

/// Whether runs do not overlap under the model: all of them, or those that share a device.
pub(crate) fn is_strict(model: Visibility) -> bool
    ensures { result ≡ is_strict_model model }
{
    match model {
        Visibility::Global | Visibility::Partitioned => true,
        Visibility::Weak | Visibility::Eventual => false,
    }
}
