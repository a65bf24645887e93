//! What holds of the rates of a tariff.

ghost use Rattle.std.specs.Prelude.{◌≡◌, List as Items, All, Some};
ghost use Rattle.std.specs.Option.{ForSome};
ghost use Rattle.desk_units.specs.declared.tariff.TariffRow.{TariffRow};
ghost use Rattle.tariff_prices.specs.Purposes.{rate_of};
ghost use Rattle.tariff_prices.specs.Prices.{first_rate};
ghost use Rattle.tariff_prices.specs.Rows.{AreTariffRows};

/// In a tariff each row decides the price or the weight of what it is for, wherever it stands: no two
/// rows are for the same, so the first that is for it is the row itself.
pub fn each_row_of_a_tariff_decides()
    ensures { (rows : Items TariffRow) → AreTariffRows rows → All (λ row. ForSome (rate_of row) (λ rate. first_rate rate.purpose rows ≡ Some rate)) rows }
{}
