//! The rows of missing faults. Actor 0 is the processor, actor 1 the migrator, actor 2 the reclaimer.

use crate::actions::{
    HOME, LOCK, UNLOCK, does, gets, give, look, map, release, scan, set_home, shadow_of, take, zero,
};
use crate::driver::Line;
use crate::scenes::{ALONE_0, ALONE_2, Deed, MASTER_0, Machine, Row, TRANSACTION};
use crate::works::{End, Work};
use nm_action::{Action, Cell, Reply};
use nm_fault::FaultEnd;
use nm_txn::TxnEnd;

/// A frame gets the words 0.
macro_rules! zeroed {
    ($frame:expr) => {
        &[
            does!(zero!($frame, 0)),
            does!(zero!($frame, 1)),
            does!(zero!($frame, 2)),
            does!(zero!($frame, 3)),
        ]
    };
}

/// The first steps of a fault on this virtual page, whose page's home word is this.
macro_rules! missing {
    ($vpage:expr, $home:expr) => {
        &[does!(LOCK), gets!(look!($vpage), 0), gets!(HOME, $home)]
    };
}

/// The page takes frame 2 of the second tier, with the hint, since too few frames of the first tier are free.
const TAKES_2: Deed = Deed::Works(
    0,
    Work::MissingFault(0),
    &[
        missing!(0, 0),
        &[
            does!(take!(0)),
            gets!(scan!(0), 3),
            does!(release!(0)),
            does!(take!(1)),
            gets!(scan!(1), 0x3ff),
            gets!(give!(2), 0x3ff),
            does!(release!(1)),
        ],
        zeroed!(2),
        &[does!(set_home!(2)), does!(map!(0, 0x2007)), does!(UNLOCK)],
    ],
    0,
    End::Fault(FaultEnd::Demand),
);

/// The page takes frame 0; then the read-only virtual page is mapped to it; then nothing is missing.
const DEMAND: &[Deed] = &[
    Deed::Works(
        0,
        Work::MissingFault(0),
        &[
            missing!(0, 0),
            &[
                does!(take!(0)),
                gets!(scan!(0), 0xf),
                gets!(give!(0), 0xf),
                does!(release!(0)),
            ],
            zeroed!(0),
            &[does!(set_home!(0)), does!(map!(0, 0x05)), does!(UNLOCK)],
        ],
        0,
        End::Fault(FaultEnd::Demand),
    ),
    Deed::Works(
        0,
        Work::MissingFault(1),
        &[
            missing!(1, 1),
            &[gets!(shadow_of!(0), 0), does!(map!(1, 0x01)), does!(UNLOCK)],
        ],
        0,
        End::Fault(FaultEnd::Alias),
    ),
    Deed::Works(
        0,
        Work::MissingFault(0),
        &[&[does!(LOCK), gets!(look!(0), 0x05), does!(UNLOCK)]],
        0,
        End::Fault(FaultEnd::Ready),
    ),
    Deed::Works(
        0,
        Work::ShadowFault(0),
        &[&[does!(LOCK), gets!(look!(0), 0x05), does!(UNLOCK)]],
        0,
        End::Fault(FaultEnd::Ready),
    ),
    Deed::Works(
        2,
        Work::Reclaim(1, 1),
        &[&[
            does!(LOCK),
            gets!(HOME, 1),
            gets!(shadow_of!(0), 0),
            does!(UNLOCK),
        ]],
        0,
        End::Freed(0),
    ),
];

fn demand() -> Row {
    Row {
        name: "demand",
        machine: Machine::ReadOnly,
        deeds: DEMAND,
        pages: &[(0, Some(0), 0)],
        frames: ALONE_0,
    }
}

/// The page takes a frame outside the first tier, and both virtual pages are mapped to it with the hint.
const DEMAND_WITH_HINT: &[Deed] = &[
    TAKES_2,
    Deed::Works(
        0,
        Work::MissingFault(1),
        &[
            missing!(1, 3),
            &[
                gets!(shadow_of!(2), 0),
                does!(map!(1, 0x2007)),
                does!(UNLOCK),
            ],
        ],
        0,
        End::Fault(FaultEnd::Alias),
    ),
];

fn demand_with_hint() -> Row {
    Row {
        name: "demand with hint",
        machine: Machine::Aliased,
        deeds: DEMAND_WITH_HINT,
        pages: &[(0, Some(2), 0)],
        frames: ALONE_2,
    }
}

/// A page that has a shadow is mapped read-only, with the right saved.
const ALIAS_OF_A_MASTER: &[Deed] = &[
    TAKES_2,
    Deed::Works(1, TRANSACTION, &[], 30, End::Transaction(TxnEnd::Committed)),
    Deed::Works(
        0,
        Work::MissingFault(1),
        &[
            missing!(1, 1),
            &[
                gets!(shadow_of!(0), 0x1_0000_0003),
                does!(map!(1, 0x21)),
                does!(UNLOCK),
            ],
        ],
        0,
        End::Fault(FaultEnd::Alias),
    ),
];

fn alias_of_a_master() -> Row {
    Row {
        name: "alias of a master",
        machine: Machine::Aliased,
        deeds: ALIAS_OF_A_MASTER,
        pages: &[(0, Some(0), 0)],
        frames: MASTER_0,
    }
}

/// The rows of missing faults.
pub fn faults() -> [Row; 3] {
    [demand(), demand_with_hint(), alias_of_a_master()]
}
