//! What the bounds of single events say of their sum.

ghost use Rattle.std.specs.Prelude.{ℕ, List};
ghost use Rattle.metering_model.specs.Events.{Kept};
ghost use Rattle.metering_model.specs.Settings.{Settings};
ghost use Rattle.metering_model.specs.Records.{MeterRecord};
ghost use Rattle.integral_model.specs.Integral.{Temps, AllFit, IsChoice, IsBounded};

/// A law, which computes nothing: where the energies of events fit, their sum differs from the exact
/// integral, whatever the temperatures in the cells, by at most the sum of the bounds, and that sum is at
/// most 2,000 mJ a counted litre.
pub fn energies_are_bounded()
    ensures { (c : Settings) (o : MeterRecord) (choice : ℕ → Temps) (ks : List Kept) →
        AllFit c o ks → IsChoice c o choice ks → IsBounded c o choice ks }
{}
