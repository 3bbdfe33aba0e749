ghost use Rattle.std.specs.Prelude.{◌≡◌, ◌↔◌, ◌<◌, ◌≤◌, ◌^◌, pos, ◌≤ℤ◌, IsTrue, length, All, AllPairs, Some, IsSome, IfSome, slice_get, option_map, vec_len};
ghost use Rattle.ofit_num.specs.Sheet.{FitsCount};
ghost use Rattle.ofit_study.specs.Settings.{InLimits};
ghost use Rattle.ofit_sheet.specs.Kept.{IsKept, IsFractionInLimits, most_amount};
ghost use Rattle.ofit_sheet.specs.Made.{ArePartsOfSheet};
ghost use Rattle.ofit_sheet.specs.Parts.{size_of, entry_of, flow_of, sheet_of};

use crate::size::{Size, is_size_in_limits};
use ofit_num::{Frac, MOST_AMOUNT};
use ofit_study::Settings;
use std::marker::Model;

/// A printed sheet: settings, a size or none, values (place, fraction) with rising places, and flows
/// (low place, high place, amount).
pub struct Sheet {
    settings: Settings,
    size: Option<Size>,
    values: Vec<(u32, Frac)>,
    flows: Vec<(u32, u32, i128)>,
}

/// Written out, so that a proof meets one call where a value is let go.
impl Drop for Sheet {
    fn drop(self) {
        let Sheet {
            settings: _,
            size: _,
            values,
            flows,
        } = self;
        drop(values);
        drop(flows);
    }
}

impl Model for Sheet {
    ghost use Rattle.ofit_num.specs.Sheet.{Sheet as Printed};
    ghost use Rattle.ofit_study.specs.declared.settings.Settings.{Settings};
    ghost use Rattle.ofit_sheet.specs.Made.{HasParts};
    ghost use Rattle.ofit_sheet.specs.Parts.{sheet_of};

    ghost Value = { Printed Settings };

    ghost view = { λ s. sheet_of s.settings s.size s.values.items s.flows.items };

    ghost invariant = { λ s. HasParts s.settings s.size s.values.items s.flows.items };
}

/// The place of a value, whose fraction is in lowest terms by its type.
fn place_of(entry: &(u32, Frac)) -> u32
    ensures place { result ≡ entry.now.0 }
    ensures fraction { IsFractionInLimits entry.now.1 }
{
    let (place, value) = entry;
    let _ = value.num();
    let _ = value.den();
    *place
}

/// Whether the places rise strictly.
fn are_rising(values: &[(u32, Frac)]) -> bool
    ensures rising { IsTrue result ↔ AllPairs (λ e f. e.0 < f.0) values.now }
    ensures fractions { IsTrue result → All (λ e. IsFractionInLimits e.1) values.now }
{
    let mut least: u64 = 0;
    for entry in values {
        let place = u64::from(place_of(entry));
        if place < least {
            return false;
        }
        least = place + 1;
    }
    true
}

/// Whether each amount is from 1 to the greatest one.
fn are_amounts(flows: &[(u32, u32, i128)]) -> bool
    ensures { IsTrue result ↔ All (λ f. (pos 1 ≤ℤ f.2) × (f.2 ≤ℤ pos most_amount)) flows.now }
{
    flows
        .iter()
        .all(|flow| 1 <= flow.2 && flow.2 <= MOST_AMOUNT as i128)
}

/// Whether a sheet is made of these parts.
fn are_parts(size: Option<Size>, values: &[(u32, Frac)], flows: &[(u32, u32, i128)]) -> bool
    ensures parts { IsTrue result ↔ ArePartsOfSheet size values.now flows.now }
    ensures fractions { IsTrue result → All (λ e. IsFractionInLimits e.1) values.now }
{
    is_size_in_limits(size) && are_rising(values) && are_amounts(flows)
}

/// Whether each place of a value is below the count.
fn are_places_below(values: &[(u32, Frac)], groups: u32) -> bool
    ensures { IsTrue result ↔ All (λ e. e.0 < groups) values.now }
{
    values.iter().all(|entry| entry.0 < groups)
}

/// Whether both ends of each flow are below the count.
fn are_ends_below(flows: &[(u32, u32, i128)], groups: u32) -> bool
    ensures { IsTrue result ↔ All (λ f. (f.0 < groups) × (f.1 < groups)) flows.now }
{
    flows.iter().all(|flow| flow.0 < groups && flow.1 < groups)
}

impl Sheet {
    /// The sheet of these parts. None exactly where the places don't rise strictly, an amount isn't
    /// from 1 to 2·10^33, or the size has more than 100,000 rows or a weight above 10^10. Linear time.
    pub fn make(
        settings: Settings,
        size: Option<Size>,
        values: Vec<(u32, Frac)>,
        flows: Vec<(u32, u32, i128)>,
    ) -> Option<Sheet>
        requires settings { InLimits settings }
        requires values { vec_len values < 2 ^ 32 }
        requires flows { vec_len flows < 2 ^ 32 }
        ensures exactly { IsSome result ↔ ArePartsOfSheet size values.items flows.items }
        ensures sheet { IfSome result (λ x. x ≡ sheet_of settings size values.items flows.items) }
    {
        if !are_parts(size, values.as_slice(), flows.as_slice()) {
            return None;
        }
        Some(Sheet {
            settings,
            size,
            values,
            flows,
        })
    }

    /// The settings of the fit.
    pub fn settings(&self) -> &Settings
        ensures value { result.now ≡ self.now.settings }
        ensures kept { IsKept self.now }
    {
        &self.settings
    }

    /// How much data the sheet was made from, where it tells.
    pub fn size(&self) -> Option<Size>
        ensures { option_map size_of result ≡ self.now.size }
    {
        self.size
    }

    /// How many values there are.
    pub fn value_count(&self) -> u32
        ensures { result ≡ length self.now.values }
    {
        self.values.len() as u32
    }

    /// The place and the value at this index.
    pub fn value_at(&self, index: u32) -> (u32, Frac)
        requires { index < length self.now.values }
        ensures value { slice_get self.now.values index ≡ Some (entry_of result) }
        ensures fraction { IsFractionInLimits result.1 }
    {
        self.values[index as usize]
    }

    /// How many flows there are.
    pub fn flow_count(&self) -> u32
        ensures { result ≡ length self.now.flows }
    {
        self.flows.len() as u32
    }

    /// The low place, the high place and the amount of the flow at this index.
    pub fn flow_at(&self, index: u32) -> (u32, u32, i128)
        requires { index < length self.now.flows }
        ensures value { slice_get self.now.flows index ≡ Some (flow_of result) }
        ensures least { pos 1 ≤ℤ result.2 }
        ensures most { result.2 ≤ℤ pos most_amount }
    {
        self.flows[index as usize]
    }

    /// Whether each place, of a value or of a flow's end, is below the count of groups. Linear time.
    pub fn fits(&self, groups: u32) -> bool
        ensures { IsTrue result ↔ FitsCount groups self.now }
    {
        are_places_below(self.values.as_slice(), groups)
            && are_ends_below(self.flows.as_slice(), groups)
    }
}
