// Where each record lies in the image, and how wide it is: each place follows from the one before it. specs/Layout has the
// same names, and `places` below says that they are the same numbers. No other file has a number of the layout.
ghost use Rattle.std.specs.Prelude.{◌≡◌, ◌<◌};
ghost use Rattle.image.specs.Layout.{limits, entry_places, head_places, places, node_places, node_at};

// ---- the ring: how many entries, how wide each, and the highest number, ordinal and number of four statuses that there are
pub const SLOTS: u16 = 128;

pub const RING: usize = SLOTS as usize;

pub const STRIDE: usize = OWNERS_IN + 8;

pub const HIGHEST: u16 = 65535;

pub const HIGHEST_ORDINAL: u32 = 131070;

pub const HIGHEST_PACKED: u16 = 2400;

// ---- in an entry, after its statuses: the phase, the number of pairs, r.index, the ordinals, the pairs, r.values, the owners
// remembered
pub const PHASE_IN: usize = 2;

pub const COUNT_IN: usize = PHASE_IN + 1;

pub const INDEX_IN: usize = COUNT_IN + 1;

pub const CHANGE_ORDINAL_IN: usize = INDEX_IN + NUMBER_SIZE;

pub const ROLLBACK_ORDINAL_IN: usize = CHANGE_ORDINAL_IN + 4;

pub const PATHS_IN: usize = ROLLBACK_ORDINAL_IN + 4;

pub const SECOND_PATH_IN: usize = PATHS_IN + 1;

pub const THIRD_PATH_IN: usize = PATHS_IN + 2;

pub const VALUES_IN: usize = PATHS_IN + 4;

pub const KEPT_IN: usize = VALUES_IN + 8;

pub const OWNERS_IN: usize = KEPT_IN + 8;

// ---- in a head, after its index; in a table of values; in a node's connection, after its id
pub const TARGET_IN: usize = NUMBER_SIZE;

pub const REVISION_IN: usize = TARGET_IN + NUMBER_SIZE;

pub const ORDINAL_IN: usize = REVISION_IN + NUMBER_SIZE;

pub const HEAD_SIZE: usize = ORDINAL_IN + 4;

pub const TABLE_LENGTH: usize = 32;

pub const VALUE_SIZE: usize = 2;

pub const TABLE_SIZE: usize = TABLE_LENGTH * VALUE_SIZE;

pub const CONNECTED_IN: usize = 4;

pub const NODE_SIZE: usize = CONNECTED_IN + 1;

pub const NODES: usize = 8;

// ---- behind the ring
pub const NUMBER_SIZE: usize = 2;

pub const LAST_AT: usize = STRIDE * RING;

pub const CHANGE_AT: usize = LAST_AT + NUMBER_SIZE;

pub const COMMITTED_AT: usize = CHANGE_AT + NUMBER_SIZE;

pub const COMMITTED_REVISION_AT: usize = COMMITTED_AT + REVISION_IN;

pub const COMMITTED_VALUES_AT: usize = COMMITTED_AT + HEAD_SIZE;

pub const OWNERS_AT: usize = COMMITTED_VALUES_AT + TABLE_SIZE;

pub const APPLIED_AT: usize = OWNERS_AT + TABLE_SIZE;

pub const APPLIED_ORDINAL_AT: usize = APPLIED_AT + ORDINAL_IN;

pub const APPLIED_VALUES_AT: usize = APPLIED_AT + HEAD_SIZE;

pub const TARGET_VALUES_AT: usize = APPLIED_VALUES_AT + TABLE_SIZE;

pub const CONFIGURATION_AT: usize = TARGET_VALUES_AT + TABLE_SIZE;

pub const CONFIGURATION_TERM_AT: usize = CONFIGURATION_AT + 1;

pub const MASTERSHIP_AT: usize = CONFIGURATION_TERM_AT + 4;

pub const MASTERSHIP_TERM_AT: usize = MASTERSHIP_AT + 1;

pub const CONN_AT: usize = MASTERSHIP_TERM_AT + 4;

pub const TARGET_AT: usize = CONN_AT + 4;

pub const RUNNING_AT: usize = TARGET_AT + 4;

pub const REMEMBERS_AT: usize = RUNNING_AT + 1;

pub const CONNECTIONS_AT: usize = REMEMBERS_AT + 1;

pub const FOLDED_AT: usize = CONNECTIONS_AT + NODES * NODE_SIZE;

pub const BASE_AT: usize = FOLDED_AT + NUMBER_SIZE;

pub const IMAGE_LENGTH: usize = BASE_AT + TABLE_SIZE;

// ---- the eight connections: where that of a node lies, the first node's as k = 0
pub fn node_at(k: usize) -> usize
    requires { k < 8 }
    ensures { result ≡ node_at k }
{
    CONNECTIONS_AT + NODE_SIZE * k
}

// ---- the same numbers as in specs/Layout: computed, and nothing else is in these functions

fn limits() -> [u32; 4]
    ensures { result ≡ limits }
{
    [
        SLOTS as u32,
        HIGHEST as u32,
        HIGHEST_ORDINAL,
        HIGHEST_PACKED as u32,
    ]
}

fn entry_places() -> [usize; 12]
    ensures { result ≡ entry_places }
{
    [
        PHASE_IN,
        COUNT_IN,
        INDEX_IN,
        CHANGE_ORDINAL_IN,
        ROLLBACK_ORDINAL_IN,
        PATHS_IN,
        SECOND_PATH_IN,
        THIRD_PATH_IN,
        VALUES_IN,
        KEPT_IN,
        OWNERS_IN,
        STRIDE,
    ]
}

fn head_places() -> [usize; 11]
    ensures { result ≡ head_places }
{
    [
        TARGET_IN,
        REVISION_IN,
        ORDINAL_IN,
        HEAD_SIZE,
        TABLE_LENGTH,
        VALUE_SIZE,
        TABLE_SIZE,
        CONNECTED_IN,
        NODE_SIZE,
        2 * NODE_SIZE,
        3 * NODE_SIZE,
    ]
}

fn places() -> [usize; 23]
    ensures { result ≡ places }
{
    [
        NUMBER_SIZE,
        LAST_AT,
        CHANGE_AT,
        COMMITTED_AT,
        COMMITTED_REVISION_AT,
        COMMITTED_VALUES_AT,
        OWNERS_AT,
        APPLIED_AT,
        APPLIED_ORDINAL_AT,
        APPLIED_VALUES_AT,
        TARGET_VALUES_AT,
        CONFIGURATION_AT,
        CONFIGURATION_TERM_AT,
        MASTERSHIP_AT,
        MASTERSHIP_TERM_AT,
        CONN_AT,
        TARGET_AT,
        RUNNING_AT,
        REMEMBERS_AT,
        CONNECTIONS_AT,
        FOLDED_AT,
        BASE_AT,
        IMAGE_LENGTH,
    ]
}

fn node_places() -> [usize; 15]
    ensures { result ≡ node_places }
{
    [
        node_at(1),
        node_at(2),
        node_at(3),
        node_at(4),
        node_at(5),
        node_at(6),
        node_at(7),
        node_at(0) + CONNECTED_IN,
        node_at(1) + CONNECTED_IN,
        node_at(2) + CONNECTED_IN,
        node_at(3) + CONNECTED_IN,
        node_at(4) + CONNECTED_IN,
        node_at(5) + CONNECTED_IN,
        node_at(6) + CONNECTED_IN,
        node_at(7) + CONNECTED_IN,
    ]
}
