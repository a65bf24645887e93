//! How the tables look, and what stands below them.

use crate::{Page, Part};
use desk_data::NoMem;

/// The style of the page and its tables, for the head of the page.
pub const TABLE_STYLE: &str = "\
*{box-sizing:border-box}
html{background:#fff;color:#191c22;-webkit-print-color-adjust:exact;print-color-adjust:exact}
body{margin:0 auto;max-width:1660px;padding:24px 30px;font:12px/1.4 \"Helvetica Neue\",Helvetica,Arial,\"Liberation Sans\",sans-serif;font-variant-numeric:tabular-nums}
header{display:flex;justify-content:space-between;align-items:baseline;gap:20px;border-bottom:2px solid #191c22;padding-bottom:6px}
header p{margin:0;color:#5a6270}
h1{margin:0;font-size:16px}
h2{margin:14px 0 3px;font-size:13px}
h2 small,.facts small{font-weight:400;color:#5a6270}
.facts{display:grid;grid-template-columns:1fr 1.7fr 1.3fr 1.4fr;gap:0 24px;margin:0 0 8px;padding:8px 0;list-style:none;border-bottom:1px solid #d4d8df}
.facts span{display:block;color:#5a6270}
.facts strong{display:block;font-size:24px;line-height:1.25;font-weight:600;white-space:nowrap}
.facts small{font-size:14px}
.facts i{font-style:normal;font-weight:400;color:#5a6270}
.facts .bad strong,.facts .bad b{color:#ad1f1f}
.pair{display:grid;grid-template-columns:minmax(0,1.1fr) minmax(0,1fr);gap:0 36px;align-items:start}
.t{border-collapse:collapse;width:100%}
.t th,.t td{padding:2px 10px 2px 0;text-align:left;font-weight:400;vertical-align:baseline}
.t thead th{color:#5a6270;font-size:11px;border-bottom:1px solid #191c22}
.t tbody tr{border-bottom:1px solid #eceef2}
.t tbody th{font-weight:600}
.t tfoot th,.t tfoot td{border-top:1px solid #191c22;font-weight:600}
.t .r{text-align:right;white-space:nowrap}
.t .was,.t .note{color:#5a6270;font-weight:400}
.t .bad{color:#ad1f1f}
.t a{color:inherit;text-decoration-color:#a9b0bc;text-underline-offset:2px}
.two{width:162px;height:12px}
.two .was{fill:#fff;stroke:#191c22;stroke-width:.9}
.two .is{fill:#191c22}
.none{color:#5a6270;margin:6px 0}
footer{margin-top:16px;border-top:1px solid #d4d8df;padding-top:8px;color:#5a6270;font-size:11px;max-width:1100px}
@media screen and (max-width:1100px){.pair,.facts{grid-template-columns:1fr}}
@page{size:A4 landscape;margin:10mm}
@media print{
body{padding:0;max-width:none;font-size:9px}
.facts strong{font-size:16px}
.t th,.t td{padding:1px 6px 1px 0}
.gantt th{width:100px}
.gantt thead th,.gantt thead td{position:static}
.gantt thead{display:table-header-group}
tr{break-inside:avoid}
h2,.f{break-after:avoid}
}
";

/// Puts where the numbers of the page come from.
pub fn put_footer(page: &mut Page) -> Result<(), NoMem> {
    page.put(&[Part::Own(
        "<footer><b>Where the numbers come from.</b> Scheduled times and aircraft: flights.csv and rotations.csv. Recovered \
ones: sol_rotations.csv. Passengers: itineraries.csv and sol_itineraries.csv; late is the arrival of the last leg after the \
booked arrival. Out of service, closed airports and the window: alt_aircraft.csv, airports.csv, alt_airports.csv, feed.csv and \
config.csv. Costs: tariff.csv, aircraft.csv and position.csv; the schedule is costed as if it could be flown. Both plans are \
checked against the rules C1 to C15 under all orders of the day. A time with +1 is on the day after the flight's date.</footer>\n",
    )])
}
