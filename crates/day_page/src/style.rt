//! How the picture looks, and its key.

use desk_data::NoMem;
use page_parts::{Page, Part};

/// The style of the picture, for the head of a page.
pub const PICTURE_STYLE: &str = "\
.defs{position:absolute}
.gantt{table-layout:fixed;border-collapse:collapse;width:100%;margin:0 0 14px}
.gantt caption{position:absolute;width:1px;height:1px;overflow:hidden;clip-path:inset(50%)}
.gantt th{width:150px;padding:0 8px 0 0;text-align:left;font-weight:400;vertical-align:middle;overflow:hidden;text-overflow:ellipsis;white-space:nowrap}
.gantt th b{font-weight:700}
.gantt th small{font-size:10px;color:#5a6270}
.gantt td{padding:0}
.gantt svg{display:block;width:100%}
.gantt thead th,.gantt thead td{position:sticky;top:0;z-index:1;background:#fff;border-bottom:1.5px solid #191c22}
.gantt tr{border-bottom:1px solid #eceef2}
.gantt .f th{font-weight:700;padding-top:6px}
.gantt .f td{color:#5a6270;padding-top:6px}
.thin-row th{font-size:9px;line-height:10px}
.thin-row th small{font-size:8px}
.key{display:flex;flex-wrap:wrap;gap:3px 16px;margin:6px 0;padding:0;list-style:none;color:#5a6270}
.key svg{width:34px;height:16px;vertical-align:-4px;margin-right:5px}
svg text{font-family:inherit;font-size:10.5px;fill:#191c22}
svg .b{font-size:12.5px;font-weight:700}
svg .t{font-size:10.5px}
svg .s{font-size:9.5px}
svg .h{font-size:11px}
svg .w{font-size:10px}
.same path{fill:#eaedf2;stroke:#7f8898;stroke-width:.8}
.moved path{fill:#ffc861;stroke:#7a5200;stroke-width:.9}
.other path{fill:#1f4e8c;stroke:#0d2747;stroke-width:.9}
.other text{fill:#fff}
.left path{fill:#fff;stroke:#191c22;stroke-width:.8}
.cut path{fill:#fff;stroke:#ad1f1f;stroke-width:1;stroke-dasharray:4 2}
.cut .x{fill:none;stroke-width:1.4;stroke-dasharray:none}
.cut text{fill:#ad1f1f}
.thin-bar{fill:none;stroke:#6b7484;stroke-width:3}
.oos{fill:url(#hatch);stroke:#59616f;stroke-width:.6}
.mnt{fill:url(#dots);stroke:#59616f;stroke-width:.6}
.shut{fill:#3d434e}
.shut+.plate{fill:none}
.shut+.plate+.w{fill:#fff}
.thin{fill:url(#lines);stroke:#59616f;stroke-width:.6}
.near{fill:#dfe3ea}
.out{fill:#f5f6f8}
.plate{fill:#fff}
.hr{stroke:#e4e7ec;stroke-width:.7;fill:none}
.mid{stroke:#8e96a4;stroke-width:1.2;fill:none}
.win{stroke:#191c22;stroke-width:1.4;stroke-dasharray:5 3;fill:none}
g:target path{stroke:#191c22;stroke-width:2.4}
";

/// Puts the patterns that the drawings name, once for a page.
pub fn put_patterns(page: &mut Page) -> Result<(), NoMem> {
    page.put(&[Part::Own(
        "<svg class=\"defs\" width=\"0\" height=\"0\" aria-hidden=\"true\"><defs>\
<pattern id=\"hatch\" width=\"5\" height=\"5\" patternUnits=\"userSpaceOnUse\" patternTransform=\"rotate(45)\">\
<rect width=\"5\" height=\"5\" fill=\"#fff\"/><rect width=\"1.6\" height=\"5\" fill=\"#59616f\"/></pattern>\
<pattern id=\"dots\" width=\"5\" height=\"5\" patternUnits=\"userSpaceOnUse\">\
<rect width=\"5\" height=\"5\" fill=\"#fff\"/><circle cx=\"1.5\" cy=\"1.5\" r=\"1\" fill=\"#59616f\"/>\
<circle cx=\"4\" cy=\"4\" r=\"1\" fill=\"#59616f\"/></pattern>\
<pattern id=\"lines\" width=\"3\" height=\"3\" patternUnits=\"userSpaceOnUse\">\
<rect width=\"3\" height=\"3\" fill=\"#fff\"/><rect width=\"1\" height=\"3\" fill=\"#8e96a4\"/></pattern>\
</defs></svg>\n",
    )])
}

/// Puts the key of the picture.
pub fn put_key(page: &mut Page) -> Result<(), NoMem> {
    page.put(&[Part::Own(
        "<ul class=\"key\">\
<li><svg viewBox=\"0 0 34 16\"><g class=\"same\"><path d=\"M1 1H33V15H1z\"/></g></svg>as scheduled</li>\
<li><svg viewBox=\"0 0 34 16\"><g class=\"moved\"><path d=\"M1 1H28l5 7l-5 7H1z\"/></g></svg>later</li>\
<li><svg viewBox=\"0 0 34 16\"><g class=\"moved\"><path d=\"M6 1H33V15H6l-5 -7z\"/></g></svg>earlier</li>\
<li><svg viewBox=\"0 0 34 16\"><g class=\"other\"><path d=\"M1 1H33V15H1z\"/></g></svg>other aircraft</li>\
<li><svg viewBox=\"0 0 34 16\"><g class=\"other\"><path d=\"M1 1H28l5 7l-5 7H1z\"/></g></svg>other aircraft and time</li>\
<li><svg viewBox=\"0 0 34 16\"><g class=\"left\"><path d=\"M1 4H33V13H1z\"/></g></svg>scheduled place</li>\
<li><svg viewBox=\"0 0 34 16\"><g class=\"cut\"><path d=\"M1 4H33V13H1z\"/><path class=\"x\" d=\"M23 5l7 7m0 -7l-7 7\"/></g></svg>cancelled</li>\
<li><svg viewBox=\"0 0 34 16\"><rect class=\"oos\" x=\"1\" y=\"1\" width=\"32\" height=\"14\"/></svg>out of service</li>\
<li><svg viewBox=\"0 0 34 16\"><rect class=\"mnt\" x=\"1\" y=\"1\" width=\"32\" height=\"14\"/></svg>maintenance</li>\
<li><svg viewBox=\"0 0 34 16\"><rect class=\"shut\" x=\"1\" y=\"3\" width=\"32\" height=\"10\"/></svg>airport closed</li>\
<li><svg viewBox=\"0 0 34 16\"><rect class=\"near\" x=\"1\" y=\"1\" width=\"32\" height=\"14\"/></svg>closed airport of the row</li>\
<li><svg viewBox=\"0 0 34 16\"><path class=\"win\" d=\"M17 0V16\"/></svg>window</li>\
</ul>\n",
    )])
}
