// The list of a table, and the card on which its programs lie.

// Hash part and name of each program. The last name is not lawful.
pub const LISTED: [(&str, &str); 5] = [
    ("s66mzxpvicwk07gjbjfw9izjfa797vsw", "knife-offsets"),
    ("0c5b4l9yxw2z1nmx3lb4wgkd3ld4k3zj", "cloth=linen_140"),
    ("vvbb6sgmr0wxz1jqmvrp2hfx4ya9hq1z", "plotter.task"),
    ("0c5a4l9yxw2z1nmx3lb4wgkd3ld4k3zj", "vacuum-sequence+2"),
    ("i4j1l2pg9mbm7dqf9v12ixjj9yak7c1s", ".hidden"),
];

// The card's blocks, and the bytes of a part and of the task.
pub const BLOCKS: u32 = 256;

pub const PART_SIZE: u32 = 600;

pub const TASK_SIZE: u32 = 2000;

// The profile in which the task is committed.
pub const PROFILE: u8 = 0;
