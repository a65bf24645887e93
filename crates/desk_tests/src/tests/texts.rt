//! The texts of two days.

use super::days::Texts;
use desk_folder::File;

/// That of the walks: four aircraft, one of them of another family, and a bus. The first leg departs before the window. The
/// first aircraft has a maintenance, before which it flies a minute too long. Most hours have room for one departure and one
/// arrival, and cabins for about who booked them.
pub(super) const WALKED: Texts<'static> = &[
    (File::Config, "01/01/00 06:00 02/01/00 06:00\n"),
    (
        File::Flights,
        "F0 A0 A1 05:30 06:30 0\nF1 A1 A0 07:10 08:25 F0\nF2 A0 A2 09:00 09:50 F1\nF3 A2 A0 10:40 11:45 F2\nF4 A0 A2 08:00 08:55 0\nF5 A2 A0 09:40 10:35 F4\nF6 A0 A1 11:20 12:30 0\nF7 A1 A0 13:00 14:05 0\nF8 A1 A2 08:30 09:40 0\nF9 A2 A1 10:20 11:35 F8\nG0 A0 A1 12:30 13:25 0\n",
    ),
    (
        File::Rotations,
        "F0 01/01/00 P0\nF1 01/01/00 P0\nF2 01/01/00 P0\nF3 01/01/00 P0\nF4 01/01/00 P1\nF5 01/01/00 P1\nF6 01/01/00 P1\nF7 01/01/00 P1\nF8 01/01/00 P2\nF9 01/01/00 P2\nG0 01/01/00 P4\n",
    ),
    (
        File::Aircraft,
        "P0 M1 NB 0/2/6 100 100 30 20 A0 A0-01/01/00-14:00-01/01/00-18:00-249\nP1 M1 NB 0/2/8 100 120 30 20 A0 NULL\nP2 M2 WB 2/2/8 65 300 40 30 A1 NULL\nP3 M1 NB 0/0/4 70 80 30 20 A2 NULL\nP4 BUS ROAD 0/0/9 600 40 30 20 A0 NULL\n",
    ),
    (
        File::Airports,
        "A0 1 1 00:00 24:00\nA1 1 1 06:00 22:00 0 0 22:00 06:00\nA2 2 2 00:00 24:00\n",
    ),
    (File::Dist, "A0 A1 60 D\nA0 A2 90 C\nA1 A2 60 I\n"),
    (
        File::Itineraries,
        "R0 A 100 3 F0 01/01/00 E F1 01/01/00 E\nR1 A 200 2 F1 01/01/00 E F2 01/01/00 E\nR2 A 300 2 F2 01/01/00 B F3 01/01/00 B\nR3 A 80 4 F4 01/01/00 E\nR4 A 90 3 F4 01/01/00 E F5 01/01/00 E\nR5 R 90.5 2 F6 01/01/00 E F7 01/01/00 B\nR6 A 500 2 F8 01/01/00 F F9 01/01/00 F\nR7 A 50 5 G0 01/01/00 E\nR8 A 70 3 F5 01/01/00 E\nR9 A 120 2 F3 01/01/00 E G0 01/01/00 E\n",
    ),
    (
        File::Position,
        "A0 M1 0/2/6 1 M1 0/2/8 1\nA1 M2 2/2/8 1\nA2 M1 0/0/4 1\n",
    ),
    (
        File::Tariff,
        "surface,ROAD\nweight,delay,0.5\nweight,operating,1.5\ndelay,D,E,10\ndelay,C,E,12\ndelay,C,B,20\ndelay,I,F,40\ncancel,D,E,200\ncancel,C,E,250\ncancel,C,B,400\ncancel,I,F,900\ndowngrade,D,B,E,60\ndowngrade,C,B,E,80\ndowngrade,I,F,E,300\ndowngrade,I,F,B,150\ncare,D,120,20\ncare,C,none,30\ncompensation,D,none,250\ncompensation,C,180,300\nposition,500\n",
    ),
];

/// What it is told: a delay, a cancellation, a breakdown and two closures, before any leg of the window has left.
pub(super) const TOLD: &str =
    "1,flight,F2,01/01/00,5\n1,flight,F7,01/01/00,-1\n1,aircraft,P1,01/01/00,10:00,01/01/00,11:30\n1,airport,A0,01/01/00,11:00,01/01/00,12:00,0,1\n1,airport,A2,01/01/00,10:00,01/01/00,11:00,1,0\n";

/// The same when some legs have left, and their passengers with them.
pub(super) const TOLD_LATER: &str =
    "1,at,01/01/00,08:20\n1,flight,F2,01/01/00,5\n1,flight,F7,01/01/00,-1\n1,aircraft,P1,01/01/00,10:00,01/01/00,11:30\n1,airport,A0,01/01/00,11:00,01/01/00,12:00,0,1\n1,airport,A2,01/01/00,10:00,01/01/00,11:00,1,0\n";

/// That of the views: two passengers each of the last two reservations booked the fourth leg; the third has seats for them.
pub(super) const VIEWED: Texts<'static> = &[
    (File::Config, "01/03/08 06:00 02/03/08 06:00\n"),
    (
        File::Flights,
        "F1 AAA BBB 08:00 09:00 0\nF2 BBB AAA 09:30 10:30 0\nF3 AAA BBB 12:00 13:00 0\nF4 AAA BBB 10:00 11:00 0\n",
    ),
    (
        File::Rotations,
        "F1 01/03/08 P1\nF2 01/03/08 P1\nF3 01/03/08 P2\nF4 01/03/08 P3\n",
    ),
    (
        File::Aircraft,
        "P1 M1 NB 0/0/10 600 100 30 20 AAA NULL\nP2 M1 NB 0/0/9 600 120 30 20 AAA NULL\nP3 M1 NB 0/0/10 600 100 30 20 AAA NULL\n",
    ),
    (
        File::Airports,
        "AAA 10 10 00:00 24:00\nBBB 10 10 00:00 24:00\n",
    ),
    (File::Dist, "AAA BBB 60 D\n"),
    (
        File::Itineraries,
        "R1 A 100 10 F1 01/03/08 E\nR2 A 50.5 4 F2 01/03/08 E\nR3 A 80 6 F3 01/03/08 E\nR4 A 60 2 F4 01/03/08 E\nR5 A 60 2 F4 01/03/08 E\n",
    ),
    (File::Position, "AAA M1 0/0/10 1\nBBB M1 0/0/9 1\n"),
    (
        File::Tariff,
        "delay,D,E,10\ncancel,D,E,200\ncare,D,120,20\ncompensation,D,none,250\nposition,500\n",
    ),
];
