//! The two ends.
use ifl_desc::Rack;
use std::marker::Model;

/// The end that posts and reclaims.
#[derive(Drop)]
pub struct WritebackDriver {
    pub(crate) rack: Rack,
}

impl Model for WritebackDriver {
    ghost use Rattle.ifl_desc.specs.Ends.{DriverSees};
    ghost use Rattle.ifl_desc.specs.Sides.{driver_of, DriverOk};

    ghost Value = { DriverSees };

    ghost view = { λ a. driver_of a.rack };

    ghost invariant = { λ a. DriverOk a.rack };
}

/// The end that takes and completes.
#[derive(Drop)]
pub struct WritebackDevice {
    pub(crate) rack: Rack,
}

impl Model for WritebackDevice {
    ghost use Rattle.ifl_desc.specs.Ends.{DeviceSees};
    ghost use Rattle.ifl_desc.specs.Sides.{device_of, DeviceOk};

    ghost Value = { DeviceSees };

    ghost view = { λ a. device_of a.rack };

    ghost invariant = { λ a. DeviceOk a.rack };
}
