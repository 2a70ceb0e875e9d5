// Jobs whose answers an independent program worked out from the rules.
use shapes::box_range::{BoxPoint, BoxRange};
use shapes::strip_range::{StripPoint, StripRange};

pub const WEB_14_POINTS: [StripPoint; 14] = [
    StripPoint { x: -289 },
    StripPoint { x: -276 },
    StripPoint { x: -238 },
    StripPoint { x: -151 },
    StripPoint { x: -93 },
    StripPoint { x: -80 },
    StripPoint { x: -79 },
    StripPoint { x: -61 },
    StripPoint { x: 0 },
    StripPoint { x: 7 },
    StripPoint { x: 51 },
    StripPoint { x: 52 },
    StripPoint { x: 62 },
    StripPoint { x: 176 },
];

pub const WEB_14_STRIPS: [StripRange; 10] = [
    StripRange { a: -93, b: -9 },
    StripRange { a: -61, b: 24 },
    StripRange { a: 52, b: 120 },
    StripRange { a: -276, b: -202 },
    StripRange { a: 0, b: 114 },
    StripRange { a: -79, b: -10 },
    StripRange { a: 62, b: 178 },
    StripRange { a: 51, b: 68 },
    StripRange { a: 7, b: 85 },
    StripRange { a: -238, b: -208 },
];

pub const WEB_EQUAL_POINTS_POINTS: [StripPoint; 6] = [
    StripPoint { x: 5 },
    StripPoint { x: 5 },
    StripPoint { x: 5 },
    StripPoint { x: 9 },
    StripPoint { x: 9 },
    StripPoint { x: 20 },
];

pub const WEB_EQUAL_POINTS_STRIPS: [StripRange; 5] = [
    StripRange { a: 5, b: 5 },
    StripRange { a: 6, b: 9 },
    StripRange { a: 5, b: 9 },
    StripRange { a: 10, b: 20 },
    StripRange { a: 20, b: 20 },
];

pub const BOX_16_POINTS: [BoxPoint; 16] = [
    BoxPoint { x: 71, y: 21 },
    BoxPoint { x: 74, y: 24 },
    BoxPoint { x: 68, y: 12 },
    BoxPoint { x: 16, y: 9 },
    BoxPoint { x: 78, y: 9 },
    BoxPoint { x: 11, y: 15 },
    BoxPoint { x: 16, y: 64 },
    BoxPoint { x: 22, y: 15 },
    BoxPoint { x: 72, y: 37 },
    BoxPoint { x: 91, y: 70 },
    BoxPoint { x: 88, y: 21 },
    BoxPoint { x: 38, y: 42 },
    BoxPoint { x: 9, y: 9 },
    BoxPoint { x: 72, y: 21 },
    BoxPoint { x: 44, y: 44 },
    BoxPoint { x: 18, y: 32 },
];

pub const BOX_16_BOXES: [BoxRange; 12] = [
    BoxRange {
        x0: 18,
        y0: 20,
        x1: 29,
        y1: 38,
    },
    BoxRange {
        x0: 3,
        y0: 53,
        x1: 29,
        y1: 78,
    },
    BoxRange {
        x0: 74,
        y0: 17,
        x1: 83,
        y1: 32,
    },
    BoxRange {
        x0: 33,
        y0: 37,
        x1: 41,
        y1: 50,
    },
    BoxRange {
        x0: 63,
        y0: 3,
        x1: 70,
        y1: 22,
    },
    BoxRange {
        x0: 43,
        y0: 38,
        x1: 54,
        y1: 59,
    },
    BoxRange {
        x0: 80,
        y0: 61,
        x1: 92,
        y1: 83,
    },
    BoxRange {
        x0: 61,
        y0: 32,
        x1: 78,
        y1: 52,
    },
    BoxRange {
        x0: 63,
        y0: 7,
        x1: 93,
        y1: 15,
    },
    BoxRange {
        x0: 12,
        y0: 2,
        x1: 18,
        y1: 24,
    },
    BoxRange {
        x0: 62,
        y0: 7,
        x1: 86,
        y1: 35,
    },
    BoxRange {
        x0: 1,
        y0: 8,
        x1: 16,
        y1: 19,
    },
];

pub const BOX_TIES_POINTS: [BoxPoint; 9] = [
    BoxPoint { x: 0, y: 0 },
    BoxPoint { x: 10, y: 0 },
    BoxPoint { x: 20, y: 0 },
    BoxPoint { x: 0, y: 10 },
    BoxPoint { x: 10, y: 10 },
    BoxPoint { x: 20, y: 10 },
    BoxPoint { x: 0, y: 20 },
    BoxPoint { x: 10, y: 20 },
    BoxPoint { x: 20, y: 20 },
];

pub const BOX_TIES_BOXES: [BoxRange; 4] = [
    BoxRange {
        x0: 0,
        y0: 0,
        x1: 10,
        y1: 10,
    },
    BoxRange {
        x0: 10,
        y0: 10,
        x1: 20,
        y1: 20,
    },
    BoxRange {
        x0: 0,
        y0: 10,
        x1: 10,
        y1: 20,
    },
    BoxRange {
        x0: 10,
        y0: 0,
        x1: 20,
        y1: 10,
    },
];

pub const BOX_EDGES_POINTS: [BoxPoint; 5] = [
    BoxPoint { x: 10, y: 10 },
    BoxPoint { x: 20, y: 20 },
    BoxPoint { x: 15, y: 10 },
    BoxPoint { x: 20, y: 15 },
    BoxPoint { x: 21, y: 15 },
];

pub const BOX_EDGES_BOXES: [BoxRange; 3] = [
    BoxRange {
        x0: 10,
        y0: 10,
        x1: 20,
        y1: 20,
    },
    BoxRange {
        x0: 20,
        y0: 10,
        x1: 21,
        y1: 20,
    },
    BoxRange {
        x0: 10,
        y0: 10,
        x1: 10,
        y1: 10,
    },
];

pub const NO_RANGES_POINTS: [BoxPoint; 2] = [BoxPoint { x: 1, y: 1 }, BoxPoint { x: 2, y: 2 }];

pub const NO_RANGES_BOXES: [BoxRange; 0] = [];
