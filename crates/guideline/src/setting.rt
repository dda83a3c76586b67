// The setting: what the rows of table 642 are told apart by, and what step 6 falls back to.
ghost use Rattle.std.specs.Prelude.{◌≡◌};
ghost use Rattle.guideline.specs.Values.{all_care, whole_reason, Q_general, no_route, setting_entered};

use crate::entries::Prescription;

// What the rows of table 642 are told apart by.
#[derive(Clone, Copy)]
pub struct Setting {
    pub care: u32,
    pub reason: u32,
    pub icpcto: u32,
    pub route: u32,
}

// Codes are numbers and no enums: lent rows and entries may hold any number (122, 125).
impl Setting {
    pub const INTENSIVE_CARE: u32 = 2;

    pub const ALL_CARE: u32 = 3;

    pub const NO_REASON: u32 = 0;

    // ICPCTO 0.
    pub const WHOLE_REASON: u32 = 0;

    pub const LAST_ICPCTO: u32 = 2;

    pub const Q_GENERAL: u32 = 17_752;

    pub const NO_ROUTE: u32 = 0;

    pub fn entered(p: Prescription) -> Setting
        ensures { result ≡ setting_entered p }
    {
        Setting {
            care: p.care,
            reason: p.reason,
            icpcto: p.icpcto,
            route: p.route,
        }
    }

    pub fn all_care(self) -> Setting
        ensures { result ≡ record { care = all_care; reason = self.reason; icpcto = self.icpcto; route = self.route } }
    {
        Setting {
            care: Setting::ALL_CARE,
            ..self
        }
    }

    pub fn whole_reason(self) -> Setting
        ensures { result ≡ record { care = self.care; reason = self.reason; icpcto = whole_reason; route = self.route } }
    {
        Setting {
            icpcto: Setting::WHOLE_REASON,
            ..self
        }
    }

    pub fn q_general(self) -> Setting
        ensures { result ≡ record { care = self.care; reason = Q_general; icpcto = whole_reason; route = self.route } }
    {
        Setting {
            reason: Setting::Q_GENERAL,
            icpcto: Setting::WHOLE_REASON,
            ..self
        }
    }

    pub fn no_route(self) -> Setting
        ensures { result ≡ record { care = self.care; reason = self.reason; icpcto = self.icpcto; route = no_route } }
    {
        Setting {
            route: Setting::NO_ROUTE,
            ..self
        }
    }
}
