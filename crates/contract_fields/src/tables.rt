// The constant tables, laid out flat: sections 2.2.9 to 2.2.12 of document 000, in their order.
use table_rows::{BOOLEAN, DATE, INTEGER, STRING, STRING_ID};

// The column "Nullable": No, Yes and Conditional, which counts as nullable.
const REQUIRED: u32 = 0;

const OPTIONAL: u32 = 1;

const CONDITIONAL: u32 = 1;

// Five numbers a field: its table, its type, whether it is nullable, where its name starts in
// FIELD_NAMES and where it ends.
pub const FIELD_ROWS: [u32; 115] = [
    // 0 Subcontractors
    0,
    STRING_ID, // ID
    REQUIRED,
    0,
    2,
    0,
    STRING, // Name
    REQUIRED,
    2,
    6,
    // 1 WBS
    1,
    INTEGER, // Level
    REQUIRED,
    6,
    11,
    1,
    STRING_ID, // ID
    REQUIRED,
    11,
    13,
    1,
    STRING, // Name
    REQUIRED,
    13,
    17,
    1,
    STRING_ID, // ParentID
    CONDITIONAL,
    17,
    25,
    // 2 OBS
    2,
    INTEGER, // Level
    REQUIRED,
    25,
    30,
    2,
    STRING_ID, // ID
    REQUIRED,
    30,
    32,
    2,
    STRING, // Name
    REQUIRED,
    32,
    36,
    2,
    STRING_ID, // SubcontractorID
    OPTIONAL,
    36,
    51,
    2,
    STRING_ID, // ParentID
    CONDITIONAL,
    51,
    59,
    // 3 ControlAccounts
    3,
    BOOLEAN, // IsSummaryLevelPlanningPackage
    OPTIONAL,
    59,
    88,
    3,
    STRING_ID, // ID
    REQUIRED,
    88,
    90,
    3,
    STRING, // Name
    REQUIRED,
    90,
    94,
    3,
    DATE, // BaselineStartDate
    OPTIONAL,
    94,
    111,
    3,
    DATE, // BaselineEndDate
    OPTIONAL,
    111,
    126,
    3,
    DATE, // ForecastStartDate
    OPTIONAL,
    126,
    143,
    3,
    DATE, // ForecastEndDate
    OPTIONAL,
    143,
    158,
    3,
    DATE, // ActualStartDate
    OPTIONAL,
    158,
    173,
    3,
    DATE, // ActualEndDate
    OPTIONAL,
    173,
    186,
    3,
    STRING, // ManagerName
    OPTIONAL,
    186,
    197,
    3,
    STRING_ID, // WBSElementID
    REQUIRED,
    197,
    209,
    3,
    STRING_ID, // OBSElementID
    REQUIRED,
    209,
    221,
];

pub const FIELD_NAMES: [u8; 221] =
    *b"IDNameLevelIDNameParentIDLevelIDNameSubcontractorIDParentIDIsSummaryLevelPlanningPackageIDNameBaselineStartDateBaselineEndDateForecastStartDateForecastEndDateActualStartDateActualEndDateManagerNameWBSElementIDOBSElementID";
