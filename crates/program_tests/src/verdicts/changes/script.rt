//! Changed lines for which a journal ends before its script does.

use super::Change;

pub static IN_MESSAGE: [Change; 2] = [(18, b"", 18), (18, b"idle 1\n", 19)];

pub static IN_WAITS: [Change; 2] = [(50, b"", 50), (76, b"", 76)];

pub static IN_RAW_FRAMES: [Change; 2] = [(34, b"", 34), (40, b"", 40)];

pub static IN_CHANNELS: [Change; 1] = [(138, b"", 138)];

pub static IN_EIGHT_DOMAINS: [Change; 2] = [(74, b"", 74), (74, b"idle 1\n", 75)];
