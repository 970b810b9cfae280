//! Fuses: devices that fail once where they are armed.
ghost use Rattle.std.specs.Prelude.{◌≡◌};
ghost use Rattle.back_model.specs.Fuses.{whole, armed_for, is_failed, after_call};

/// How often a device failed, and when it is to fail next.
#[derive(Drop)]
pub(crate) struct Fuse {
    fails: u64,
    armed: bool,
    passes: u64,
}

impl Fuse {
    // A fuse that passes every call.
    pub(crate) fn new() -> Fuse
        ensures { result ≡ whole }
    {
        Fuse {
            fails: 0,
            armed: false,
            passes: 0,
        }
    }

    // Passes this number of calls, fails the next, and passes all later ones.
    pub(crate) fn arm(&mut self, passes: u64)
        ensures { self.new ≡ armed_for passes self.old }
    {
        self.armed = true;
        self.passes = passes;
    }

    // Counts a call, and tells whether the device fails it. A refused call doesn't reach the
    // device.
    pub(crate) fn fails_call(&mut self, is_refused: bool) -> bool
        ensures fails { result ≡ is_failed is_refused self.old }
        ensures fuse { self.new ≡ after_call is_refused self.old }
    {
        if !self.armed || self.passes > 0 || self.fails == u64::MAX {
            self.passes = self.passes.saturating_sub(1);
            return false;
        }
        if is_refused {
            return false;
        }
        self.armed = false;
        self.fails += 1;
        true
    }

    // How often the device failed.
    pub(crate) fn failures(&self) -> u64
        ensures { result ≡ self.now.fails }
    {
        self.fails
    }
}
