// The four rules that document 02, order 8, adds, laid out flat in its order.

// Their shapes, by number.
const ALL_GIVEN: u32 = 10;

const NONE_GIVEN: u32 = 11;

const IN_ORDER: u32 = 12;

// Nine numbers a mark: the shape, the file whose records are judged, the file that is looked into,
// the deciding field, and five that the shape reads.
pub const FURTHER_ROWS: [u32; 36] = [
    ALL_GIVEN, // 81: file 10 BaselineDuration to FinishVarianceDuration all given
    10, 10, 13, 18, 0, 0, 0, 0, NONE_GIVEN, // 82: file 10 ActualStartDate and ActualFinishDate null
    10, 10, 21, 23, 0, 0, 0, 0, IN_ORDER, // 83: file 10 BaselineStartDate not after BaselineFinishDate
    10, 10, 14, 15, 0, 0, 0, 0, NONE_GIVEN, // 84: file 19 Actual_ToDate_Dollars and Actual_ToDate_Hours null
    19, 19, 6, 8, 0, 0, 0, 0,
];
