//! An item of the line with the devices that it has touched.
ghost use Rattle.std.specs.Prelude.{◌≡◌, ◌<◌, true};
ghost use Rattle.command_rules.specs.Items.{is_ran};
ghost use Rattle.std.specs.FinSet as set;
ghost use Rattle.home_types.specs.Limits.{most_devices};
ghost use Rattle.serial_line.specs.Marks.{is_item, is_open_run, meets, untouched};

use home_types::{DeviceNo, DeviceSet, Item, RunNo};
use std::marker::Model;

/// An item of the line, with the devices that it has touched, and whether it is a run that has
/// ended.
#[derive(Drop)]
pub(crate) struct MarkedItem {
    item: Item,
    // of a run; an event has touched its own device alone
    touches: DeviceSet,
    ended: bool,
}

impl Model for MarkedItem {
    ghost use Rattle.serial_line.specs.Marks.{Mark, mark_code, touched_by};

    ghost Value = { Mark };

    ghost coded = { mark_code };

    ghost view = { λ e. record {
      item = e.item;
      touched = touched_by e.item e.touches;
      ended = e.ended;
    } };
}

impl MarkedItem {
    /// An item as it comes into the line.
    pub(crate) fn new(item: Item) -> MarkedItem
        ensures { result ≡ untouched item }
    {
        MarkedItem {
            item,
            touches: DeviceSet::none(),
            ended: false,
        }
    }

    /// The run, or the failure or restart of a device.
    pub(crate) fn item(&self) -> Item
        ensures { result ≡ self.now.item }
    {
        self.item
    }

    /// Whether it is this item.
    pub(crate) fn is(&self, item: Item) -> bool
        ensures { result ≡ is_item item self.now.item }
    {
        self.item == item
    }

    /// Whether it has touched the device.
    pub(crate) fn has_touched(&self, device: DeviceNo) -> bool
        ensures { result ≡ set.contains self.now.touched device.0 }
    {
        match self.item {
            Item::Ran(_) => self.touches.has(device),
            Item::Failed(failed, _) => failed == device,
            Item::Back(back, _) => back == device,
        }
    }

    /// Whether it has touched one of the devices.
    pub(crate) fn meets(&self, devices: &DeviceSet) -> bool
        ensures { result ≡ meets devices.now self.now }
    {
        match self.item {
            Item::Ran(_) => self.touches.meets(devices),
            Item::Failed(failed, _) => devices.has(failed),
            Item::Back(back, _) => devices.has(back),
        }
    }

    /// The run of the entry has touched the device too.
    pub(crate) fn touch(&mut self, run: RunNo, device: DeviceNo)
        requires run { is_ran run.0 self.old.item ≡ true }
        requires device { device.0 < most_devices }
        ensures item { self.new.item ≡ self.old.item }
        ensures touched { self.new.touched ≡ set.insert self.old.touched device.0 }
        ensures ended { self.new.ended ≡ self.old.ended }
    {
        self.touches.add(device);
    }

    /// The run of the entry has ended.
    pub(crate) fn settle(&mut self)
        ensures { self.new ≡ record self.old { ended = true } }
    {
        self.ended = true;
    }

    /// Whether it is a run that has not ended.
    pub(crate) fn is_open(&self) -> bool
        ensures { result ≡ is_open_run self.now }
    {
        match self.item {
            Item::Ran(_) => !self.ended,
            Item::Failed(..) | Item::Back(..) => false,
        }
    }
}
