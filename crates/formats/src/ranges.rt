// The ranges of specs/Ranges.antt: each is named by the place of its first end. A list is copied at each call, so E lines have one of their
// own. In both, places 0 to 2 name no span: they stand for "as held", "not negative" and "a day".

// Of both lists.
pub const YEAR: u32 = 3;

pub const MONTH: u32 = 5;

pub const HOUR: u32 = 7;

pub const MINUTE: u32 = 9;

pub const LATITUDE: u32 = 11;

pub const LONGITUDE: u32 = 13;

// Of the E line's.
pub const SECOND: u32 = 15;

pub const EVENT_RANGES: [i64; 17] = [
    0, // as held
    0, // not negative
    0, // a day
    -999, // year
    6070, 1, // month
    12, 0, // hour
    23, 0, // minute
    59, -900000, // latitude x 10000
    900000, -1800000, // longitude x 10000
    1800000, 0, // second x 10
    599,
];

// Of the rows' of file formats; the last three are as SECOND, LATITUDE and LONGITUDE, of columns with three decimals.
pub const DISTANCE: u32 = 15;

pub const AZIMUTH: u32 = 17;

pub const SECOND_3: u32 = 19;

pub const LATITUDE_3: u32 = 21;

pub const LONGITUDE_3: u32 = 23;

pub const RANGES: [i64; 25] = [
    0, // as held
    0, // not negative
    0, // a day
    -999, // year
    6070, 1, // month
    12, 0, // hour
    23, 0, // minute
    59, -900000, // latitude x 10000
    900000, -1800000, // longitude x 10000
    1800000, 0, // distance x 100
    18000, 0, // azimuth x 10
    3600, 0, // second x 1000
    59999, -90000, // latitude x 1000
    90000, -180000, // longitude x 1000
    180000,
];
