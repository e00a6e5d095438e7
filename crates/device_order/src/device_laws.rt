//! Laws of one device's order. Each is a function with no work in it, whose contract is the law.

ghost use Rattle.device_order.specs.Changes.{DeviceChange};
ghost use Rattle.device_order.specs.Claims.{ReadFinds, StandsAt, value_in_effect};
ghost use Rattle.device_order.specs.Invariant.{DeviceInvariant};
ghost use Rattle.device_order.specs.Records.{DeviceRecord};
ghost use Rattle.device_order.specs.declared.records.HeldGrip.TheVariants.{Reads};
ghost use Rattle.device_order.specs.declared.records.OrderEntry.TheVariants.{Used};
ghost use Rattle.device_order.specs.declared.records.OrderEntry.{OrderEntry};
ghost use Rattle.device_order.specs.declared.records.Usage.{Usage};
ghost use Rattle.std.specs.Prelude.{◌≡◌, ◌++◌, ◌∷◌, List};

/// Each kind of change on a device keeps its invariant.
pub fn change_law()
    ensures { (d e : DeviceRecord) → DeviceChange d e → DeviceInvariant d → DeviceInvariant e }
{}

/// What a read finds, where its grip is out.
pub fn read_law()
    ensures { (d : DeviceRecord) (a b : List OrderEntry) (u : Usage) → DeviceInvariant d
        → d.order ≡ a ++ Used u ∷ b → u.grip ≡ Reads → ReadFinds d a u d.held }
{}

/// The device stands at its standing value, and each drive that is out drives that value.
pub fn standing_law()
    ensures { (d : DeviceRecord) → DeviceInvariant d → StandsAt d (value_in_effect d) }
{}
