// The two jobs: strips of a web, and a sheet of thirty orders.
use shapes::box_range::{BoxPoint, BoxRange};
use shapes::strip_range::{StripPoint, StripRange};

pub const WEB_POINTS: [StripPoint; 4] = [
    StripPoint { x: 0 },
    StripPoint { x: 10 },
    StripPoint { x: 20 },
    StripPoint { x: 30 },
];

pub const WEB_STRIPS: [StripRange; 2] = [StripRange { a: 0, b: 10 }, StripRange { a: 20, b: 30 }];

// Spots in 0.01 mm.
pub const SPOTS: [BoxPoint; 24] = [
    BoxPoint { x: 4490, y: 623 },
    BoxPoint { x: 2833, y: 4903 },
    BoxPoint { x: 6921, y: 4962 },
    BoxPoint { x: 2364, y: 710 },
    BoxPoint { x: 4180, y: 2816 },
    BoxPoint { x: 3218, y: 3403 },
    BoxPoint { x: 152, y: 264 },
    BoxPoint { x: 849, y: 3643 },
    BoxPoint { x: 5342, y: 1841 },
    BoxPoint { x: 6578, y: 2863 },
    BoxPoint { x: 700, y: 4078 },
    BoxPoint { x: 2697, y: 4978 },
    BoxPoint { x: 4442, y: 3437 },
    BoxPoint { x: 6849, y: 1633 },
    BoxPoint { x: 3663, y: 1396 },
    BoxPoint { x: 1797, y: 3554 },
    BoxPoint { x: 6423, y: 3342 },
    BoxPoint { x: 5523, y: 4608 },
    BoxPoint { x: 4288, y: 1608 },
    BoxPoint { x: 4453, y: 3460 },
    BoxPoint { x: 2444, y: 2279 },
    BoxPoint { x: 4193, y: 1801 },
    BoxPoint { x: 6707, y: 3364 },
    BoxPoint { x: 6439, y: 3870 },
];

pub const ORDERS: [BoxRange; 30] = [
    BoxRange {
        x0: 4024,
        y0: 977,
        x1: 5352,
        y1: 2351,
    },
    BoxRange {
        x0: 2251,
        y0: 3661,
        x1: 3764,
        y1: 5101,
    },
    BoxRange {
        x0: 4862,
        y0: 612,
        x1: 6314,
        y1: 2090,
    },
    BoxRange {
        x0: 1137,
        y0: 3200,
        x1: 3117,
        y1: 4471,
    },
    BoxRange {
        x0: 5201,
        y0: 1075,
        x1: 6558,
        y1: 2438,
    },
    BoxRange {
        x0: 5526,
        y0: 1481,
        x1: 7601,
        y1: 2366,
    },
    BoxRange {
        x0: -76,
        y0: -21,
        x1: 1440,
        y1: 1003,
    },
    BoxRange {
        x0: 2177,
        y0: -123,
        x1: 2975,
        y1: 1218,
    },
    BoxRange {
        x0: 4943,
        y0: 4045,
        x1: 5762,
        y1: 4684,
    },
    BoxRange {
        x0: 4017,
        y0: -132,
        x1: 5026,
        y1: 646,
    },
    BoxRange {
        x0: 5663,
        y0: 3479,
        x1: 7119,
        y1: 4315,
    },
    BoxRange {
        x0: 3894,
        y0: -18,
        x1: 4853,
        y1: 781,
    },
    BoxRange {
        x0: 6218,
        y0: 2899,
        x1: 7375,
        y1: 3705,
    },
    BoxRange {
        x0: 6303,
        y0: 4493,
        x1: 7519,
        y1: 5415,
    },
    BoxRange {
        x0: 1694,
        y0: 3197,
        x1: 2507,
        y1: 4126,
    },
    BoxRange {
        x0: 3175,
        y0: 2211,
        x1: 5053,
        y1: 2978,
    },
    BoxRange {
        x0: 2160,
        y0: 3138,
        x1: 4239,
        y1: 3856,
    },
    BoxRange {
        x0: 3362,
        y0: 231,
        x1: 4836,
        y1: 1251,
    },
    BoxRange {
        x0: 3895,
        y0: 21,
        x1: 5942,
        y1: 953,
    },
    BoxRange {
        x0: 2989,
        y0: 921,
        x1: 3997,
        y1: 1695,
    },
    BoxRange {
        x0: 2621,
        y0: 3657,
        x1: 4147,
        y1: 4918,
    },
    BoxRange {
        x0: 4007,
        y0: 505,
        x1: 5372,
        y1: 1308,
    },
    BoxRange {
        x0: 3689,
        y0: 164,
        x1: 5296,
        y1: 1613,
    },
    BoxRange {
        x0: 1619,
        y0: 1717,
        x1: 3231,
        y1: 2494,
    },
    BoxRange {
        x0: 5110,
        y0: 3998,
        x1: 7146,
        y1: 4945,
    },
    BoxRange {
        x0: 3533,
        y0: 233,
        x1: 5524,
        y1: 1394,
    },
    BoxRange {
        x0: 5750,
        y0: 3598,
        x1: 7089,
        y1: 4253,
    },
    BoxRange {
        x0: 4734,
        y0: 1148,
        x1: 5847,
        y1: 1857,
    },
    BoxRange {
        x0: 1674,
        y0: 3345,
        x1: 2824,
        y1: 4597,
    },
    BoxRange {
        x0: 1848,
        y0: 1862,
        x1: 3657,
        y1: 2806,
    },
];
