// Where each part of a store stands and how long it is, as store/specs/Layout says: an offset is the sum of the lengths before it. This is
// the one file of the code that has these numbers; a proof fails where one of them and the layout part.

// ---- tables

// The instances that are there by themselves: how many there may be, and the contents of one.
pub const SLOT_COUNT: usize = 4;

pub const SLOT: usize = 15;

// The created ones: how many there may be, and of each class and number, its contents with those of what came with it, both together.
pub const PLACE_COUNT: usize = 40;

pub const KEY: usize = 4;

pub const ENTRY: usize = 35;

pub const PLACE: usize = KEY + ENTRY;

// The number of places in use, the slots, the places.
pub const TABLE: usize = 1 + SLOT_COUNT * SLOT + PLACE_COUNT * PLACE;

// A block is a table with one byte in front: where it has the number of places in use, its slots and its places.
pub const BLOCK: usize = 1 + TABLE;

pub const IN_USE: usize = 1;

pub const SLOTS: usize = IN_USE + 1;

pub const PLACES: usize = SLOTS + SLOT_COUNT * SLOT;

// ---- the remembered command: a mark, the command, its reply

pub const COMMAND: usize = 40;

pub const REPLY: usize = 48;

pub const MEMORY: usize = 1 + COMMAND + REPLY;

// ---- the alarm walk: a mark, and the alarms that were frozen, a byte for each slot

pub const WALK: usize = 1 + SLOT_COUNT;

// ---- the store: where each part begins, and where it ends

pub const PRODUCT: usize = 0;

pub const ALARM_NUMBER: usize = PRODUCT + 1;

pub const MEMORY_AT: usize = ALARM_NUMBER + 1;

pub const MEMORY_END: usize = MEMORY_AT + MEMORY;

// A byte of alarms for each slot.
pub const ALARMS_AT: usize = MEMORY_END;

pub const ALARMS_END: usize = ALARMS_AT + SLOT_COUNT;

pub const WALK_AT: usize = ALARMS_END;

pub const WALK_END: usize = WALK_AT + WALK;

// The live block, class 2's contents in front.
pub const LIVE_AT: usize = WALK_END;

pub const TABLE_AT: usize = LIVE_AT + 1;

pub const LIVE_END: usize = LIVE_AT + BLOCK;

// The frozen block, a mark in front.
pub const UPLOAD_AT: usize = LIVE_END;

pub const UPLOAD_END: usize = UPLOAD_AT + BLOCK;

pub const STORE: usize = UPLOAD_END;
