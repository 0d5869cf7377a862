// The constant tables, laid out flat: section 2.2 and section 2.4 of document 002, in their order.
use table_rows::{BOOLEAN, DATE, DECIMAL, INTEGER, STRING, STRING_ID, TEXT};

// The column "Nullable": No, Yes and Conditional, which counts as nullable.
const REQUIRED: u32 = 0;

const OPTIONAL: u32 = 1;

const CONDITIONAL: u32 = 1;

// Five numbers a field: its table, its type, whether it is nullable, where its name starts in
// FIELD_NAMES and where it ends.
pub const FIELD_ROWS: [u32; 680] = [
    // 1 DatasetMetadata
    1,
    STRING, // SecurityMarking
    REQUIRED,
    0,
    15,
    1,
    TEXT, // DistributionStatement
    OPTIONAL,
    15,
    36,
    1,
    DATE, // ReportingPeriodEndDate
    REQUIRED,
    36,
    58,
    1,
    STRING, // ContractorName
    OPTIONAL,
    58,
    72,
    1,
    STRING_ID, // ContractorIDCodeTypeID
    OPTIONAL,
    72,
    94,
    1,
    STRING, // ContractorIDCode
    CONDITIONAL,
    94,
    110,
    1,
    TEXT, // ContractorAddress_Street
    OPTIONAL,
    110,
    134,
    1,
    STRING, // ContractorAddress_City
    OPTIONAL,
    134,
    156,
    1,
    STRING, // ContractorAddress_State
    OPTIONAL,
    156,
    179,
    1,
    STRING, // ContractorAddress_Country
    OPTIONAL,
    179,
    204,
    1,
    STRING, // ContractorAddress_ZipCode
    OPTIONAL,
    204,
    229,
    1,
    STRING, // PointOfContactName
    OPTIONAL,
    229,
    247,
    1,
    STRING, // PointOfContactTitle
    OPTIONAL,
    247,
    266,
    1,
    STRING, // PointOfContactTelephone
    OPTIONAL,
    266,
    289,
    1,
    STRING, // PointOfContactEmail
    OPTIONAL,
    289,
    308,
    1,
    STRING, // ContractName
    OPTIONAL,
    308,
    320,
    1,
    STRING, // ContractNumber
    OPTIONAL,
    320,
    334,
    1,
    STRING, // ContractType
    OPTIONAL,
    334,
    346,
    1,
    STRING, // ContractTaskOrEffortName
    OPTIONAL,
    346,
    370,
    1,
    STRING, // ProgramName
    OPTIONAL,
    370,
    381,
    1,
    STRING, // ProgramPhase
    OPTIONAL,
    381,
    393,
    1,
    BOOLEAN, // EVMSAccepted
    OPTIONAL,
    393,
    405,
    1,
    DATE, // EVMSAcceptanceDate
    CONDITIONAL,
    405,
    423,
    // 2 SourceSoftwareMetadata
    2,
    STRING, // Data_SoftwareName
    OPTIONAL,
    423,
    440,
    2,
    STRING, // Data_SoftwareVersion
    OPTIONAL,
    440,
    460,
    2,
    STRING, // Data_SoftwareCompanyName
    OPTIONAL,
    460,
    484,
    2,
    TEXT, // Data_SoftwareComments
    OPTIONAL,
    484,
    505,
    2,
    STRING, // Export_SoftwareName
    OPTIONAL,
    505,
    524,
    2,
    STRING, // Export_SoftwareVersion
    OPTIONAL,
    524,
    546,
    2,
    STRING, // Export_SoftwareCompanyName
    OPTIONAL,
    546,
    572,
    2,
    TEXT, // Export_SoftwareComments
    OPTIONAL,
    572,
    595,
    // 3 ProjectScheduleData
    3,
    DATE, // StatusDate
    REQUIRED,
    595,
    605,
    3,
    DATE, // CurrentStartDate
    REQUIRED,
    605,
    621,
    3,
    DATE, // CurrentFinishDate
    REQUIRED,
    621,
    638,
    3,
    DATE, // BaselineStartDate
    OPTIONAL,
    638,
    655,
    3,
    DATE, // BaselineFinishDate
    OPTIONAL,
    655,
    673,
    3,
    DATE, // ActualStartDate
    OPTIONAL,
    673,
    688,
    3,
    DATE, // ActualFinishDate
    OPTIONAL,
    688,
    704,
    3,
    STRING_ID, // DurationUnitsID
    REQUIRED,
    704,
    719,
    // 4 ProjectCustomFieldDefinitions
    4,
    STRING_ID, // CustomFieldID
    REQUIRED,
    719,
    732,
    4,
    STRING, // Name
    REQUIRED,
    732,
    736,
    4,
    TEXT, // Comments
    OPTIONAL,
    736,
    744,
    // 5 ProjectCustomFieldValues
    5,
    STRING_ID, // CustomFieldID
    REQUIRED,
    744,
    757,
    5,
    STRING, // Value
    REQUIRED,
    757,
    762,
    // 6 Calendars
    6,
    STRING_ID, // ID
    REQUIRED,
    762,
    764,
    6,
    STRING, // Name
    REQUIRED,
    764,
    768,
    6,
    TEXT, // Comments
    OPTIONAL,
    768,
    776,
    // 7 CalendarWorkshifts
    7,
    STRING_ID, // CalendarID
    REQUIRED,
    776,
    786,
    7,
    INTEGER, // Ordinal
    OPTIONAL,
    786,
    793,
    7,
    DECIMAL, // SundayWorkHours
    OPTIONAL,
    793,
    808,
    7,
    DECIMAL, // MondayWorkHours
    OPTIONAL,
    808,
    823,
    7,
    DECIMAL, // TuesdayWorkHours
    OPTIONAL,
    823,
    839,
    7,
    DECIMAL, // WednesdayWorkHours
    OPTIONAL,
    839,
    857,
    7,
    DECIMAL, // ThursdayWorkHours
    OPTIONAL,
    857,
    874,
    7,
    DECIMAL, // FridayWorkHours
    OPTIONAL,
    874,
    889,
    7,
    DECIMAL, // SaturdayWorkHours
    OPTIONAL,
    889,
    906,
    // 8 CalendarExceptions
    8,
    STRING_ID, // CalendarID
    REQUIRED,
    906,
    916,
    8,
    DATE, // ExceptionDate
    REQUIRED,
    916,
    929,
    8,
    DECIMAL, // WorkHours
    OPTIONAL,
    929,
    938,
    // 9 Tasks
    9,
    STRING_ID, // ID
    REQUIRED,
    938,
    940,
    9,
    STRING, // Name
    REQUIRED,
    940,
    944,
    9,
    STRING_ID, // TaskTypeID
    REQUIRED,
    944,
    954,
    9,
    STRING_ID, // TaskSubtypeID
    OPTIONAL,
    954,
    967,
    9,
    STRING_ID, // TaskPlanningLevelID
    CONDITIONAL,
    967,
    986,
    9,
    STRING_ID, // WBSElementID
    OPTIONAL,
    986,
    998,
    9,
    STRING_ID, // OBSElementID
    OPTIONAL,
    998,
    1010,
    9,
    STRING_ID, // ControlAccountID
    OPTIONAL,
    1010,
    1026,
    9,
    STRING_ID, // WorkPackageID
    OPTIONAL,
    1026,
    1039,
    9,
    STRING_ID, // IMPElementID
    OPTIONAL,
    1039,
    1051,
    9,
    STRING, // SOWReference
    OPTIONAL,
    1051,
    1063,
    9,
    STRING, // SubcontractorReference
    OPTIONAL,
    1063,
    1085,
    9,
    STRING_ID, // EarnedValueTechniqueID
    OPTIONAL,
    1085,
    1107,
    9,
    STRING, // OtherEarnedValueTechnique
    CONDITIONAL,
    1107,
    1132,
    9,
    STRING, // SourceSubprojectReference
    OPTIONAL,
    1132,
    1157,
    9,
    STRING, // SourceTaskReference
    OPTIONAL,
    1157,
    1176,
    9,
    TEXT, // Comments
    OPTIONAL,
    1176,
    1184,
    // 10 TaskScheduleData
    10,
    STRING_ID, // TaskID
    REQUIRED,
    1184,
    1190,
    10,
    STRING_ID, // CalendarID
    REQUIRED,
    1190,
    1200,
    10,
    DECIMAL, // CurrentDuration
    REQUIRED,
    1200,
    1215,
    10,
    DATE, // CurrentStartDate
    REQUIRED,
    1215,
    1231,
    10,
    DATE, // CurrentFinishDate
    REQUIRED,
    1231,
    1248,
    10,
    DATE, // EarlyStartDate
    REQUIRED,
    1248,
    1262,
    10,
    DATE, // EarlyFinishDate
    REQUIRED,
    1262,
    1277,
    10,
    DATE, // LateStartDate
    REQUIRED,
    1277,
    1290,
    10,
    DATE, // LateFinishDate
    REQUIRED,
    1290,
    1304,
    10,
    DECIMAL, // FreeFloatDuration
    REQUIRED,
    1304,
    1321,
    10,
    DECIMAL, // TotalFloatDuration
    REQUIRED,
    1321,
    1339,
    10,
    BOOLEAN, // OnCriticalPath
    REQUIRED,
    1339,
    1353,
    10,
    BOOLEAN, // OnDrivingPath
    OPTIONAL,
    1353,
    1366,
    10,
    DECIMAL, // BaselineDuration
    OPTIONAL,
    1366,
    1382,
    10,
    DATE, // BaselineStartDate
    OPTIONAL,
    1382,
    1399,
    10,
    DATE, // BaselineFinishDate
    OPTIONAL,
    1399,
    1417,
    10,
    DECIMAL, // StartVarianceDuration
    OPTIONAL,
    1417,
    1438,
    10,
    DECIMAL, // FinishVarianceDuration
    OPTIONAL,
    1438,
    1460,
    10,
    DECIMAL, // CalculatedPercentComplete
    REQUIRED,
    1460,
    1485,
    10,
    DECIMAL, // PhysicalPercentComplete
    OPTIONAL,
    1485,
    1508,
    10,
    DECIMAL, // RemainingDuration
    REQUIRED,
    1508,
    1525,
    10,
    DATE, // ActualStartDate
    OPTIONAL,
    1525,
    1540,
    10,
    DATE, // ActualFinishDate
    OPTIONAL,
    1540,
    1556,
    // 11 TaskCustomFieldDefinitions
    11,
    STRING_ID, // CustomFieldID
    REQUIRED,
    1556,
    1569,
    11,
    STRING, // Name
    REQUIRED,
    1569,
    1573,
    11,
    TEXT, // Comments
    OPTIONAL,
    1573,
    1581,
    // 12 TaskCustomFieldValues
    12,
    STRING_ID, // TaskID
    REQUIRED,
    1581,
    1587,
    12,
    STRING_ID, // CustomFieldID
    REQUIRED,
    1587,
    1600,
    12,
    STRING, // Value
    REQUIRED,
    1600,
    1605,
    // 13 TaskConstraints
    13,
    STRING_ID, // TaskID
    REQUIRED,
    1605,
    1611,
    13,
    STRING_ID, // ConstraintTypeID
    REQUIRED,
    1611,
    1627,
    13,
    STRING, // OtherConstraintType
    CONDITIONAL,
    1627,
    1646,
    13,
    DATE, // ConstraintDate
    CONDITIONAL,
    1646,
    1660,
    // 14 TaskRelationships
    14,
    STRING_ID, // PredecessorTaskID
    REQUIRED,
    1660,
    1677,
    14,
    STRING_ID, // SuccessorTaskID
    REQUIRED,
    1677,
    1692,
    14,
    STRING_ID, // RelationshipTypeID
    REQUIRED,
    1692,
    1710,
    14,
    DECIMAL, // LagDuration
    OPTIONAL,
    1710,
    1721,
    14,
    STRING_ID, // LagCalendarID
    OPTIONAL,
    1721,
    1734,
    // 15 TaskOutlineStructure
    15,
    INTEGER, // Level
    REQUIRED,
    1734,
    1739,
    15,
    STRING_ID, // TaskID
    REQUIRED,
    1739,
    1745,
    15,
    STRING_ID, // ParentTaskID
    CONDITIONAL,
    1745,
    1757,
    // 16 Resources
    16,
    STRING_ID, // ID
    REQUIRED,
    1757,
    1759,
    16,
    STRING, // Name
    REQUIRED,
    1759,
    1763,
    16,
    STRING_ID, // ElementOfCostID
    REQUIRED,
    1763,
    1778,
    16,
    TEXT, // Comments
    OPTIONAL,
    1778,
    1786,
    // 17 ResourceCustomFieldDefinitions
    17,
    STRING_ID, // CustomFieldID
    REQUIRED,
    1786,
    1799,
    17,
    STRING, // Name
    REQUIRED,
    1799,
    1803,
    17,
    TEXT, // Comments
    OPTIONAL,
    1803,
    1811,
    // 18 ResourceCustomFieldValues
    18,
    STRING_ID, // ResourceID
    REQUIRED,
    1811,
    1821,
    18,
    STRING_ID, // CustomFieldID
    REQUIRED,
    1821,
    1834,
    18,
    STRING, // Value
    REQUIRED,
    1834,
    1839,
    // 19 ResourceAssignments
    19,
    STRING_ID, // ResourceID
    REQUIRED,
    1839,
    1849,
    19,
    STRING_ID, // TaskID
    REQUIRED,
    1849,
    1855,
    19,
    DECIMAL, // Budget_AtCompletion_Dollars
    OPTIONAL,
    1855,
    1882,
    19,
    DECIMAL, // Budget_AtCompletion_Hours
    OPTIONAL,
    1882,
    1907,
    19,
    DECIMAL, // Estimate_ToComplete_Dollars
    OPTIONAL,
    1907,
    1934,
    19,
    DECIMAL, // Estimate_ToComplete_Hours
    OPTIONAL,
    1934,
    1959,
    19,
    DECIMAL, // Actual_ToDate_Dollars
    OPTIONAL,
    1959,
    1980,
    19,
    DECIMAL, // Actual_ToDate_Hours
    OPTIONAL,
    1980,
    1999,
    19,
    DECIMAL, // PhysicalPercentComplete
    OPTIONAL,
    1999,
    2022,
];

// The names one behind the other, in field order.
pub const FIELD_NAMES: [u8; 2022] = *b"\
    SecurityMarkingDistributionStatementReportingPeriodEndDateContractorName\
    ContractorIDCodeTypeIDContractorIDCodeContractorAddress_StreetContractorAddress_City\
    ContractorAddress_StateContractorAddress_CountryContractorAddress_ZipCodePointOfContactName\
    PointOfContactTitlePointOfContactTelephonePointOfContactEmailContractNameContractNumber\
    ContractTypeContractTaskOrEffortNameProgramNameProgramPhaseEVMSAcceptedEVMSAcceptanceDate\
    Data_SoftwareNameData_SoftwareVersionData_SoftwareCompanyNameData_SoftwareComments\
    Export_SoftwareNameExport_SoftwareVersionExport_SoftwareCompanyNameExport_SoftwareComments\
    StatusDateCurrentStartDateCurrentFinishDateBaselineStartDateBaselineFinishDate\
    ActualStartDateActualFinishDateDurationUnitsID\
    CustomFieldIDNameComments\
    CustomFieldIDValue\
    IDNameComments\
    CalendarIDOrdinalSundayWorkHoursMondayWorkHoursTuesdayWorkHoursWednesdayWorkHours\
    ThursdayWorkHoursFridayWorkHoursSaturdayWorkHours\
    CalendarIDExceptionDateWorkHours\
    IDNameTaskTypeIDTaskSubtypeIDTaskPlanningLevelIDWBSElementIDOBSElementIDControlAccountID\
    WorkPackageIDIMPElementIDSOWReferenceSubcontractorReferenceEarnedValueTechniqueID\
    OtherEarnedValueTechniqueSourceSubprojectReferenceSourceTaskReferenceComments\
    TaskIDCalendarIDCurrentDurationCurrentStartDateCurrentFinishDateEarlyStartDate\
    EarlyFinishDateLateStartDateLateFinishDateFreeFloatDurationTotalFloatDurationOnCriticalPath\
    OnDrivingPathBaselineDurationBaselineStartDateBaselineFinishDateStartVarianceDuration\
    FinishVarianceDurationCalculatedPercentCompletePhysicalPercentCompleteRemainingDuration\
    ActualStartDateActualFinishDate\
    CustomFieldIDNameComments\
    TaskIDCustomFieldIDValue\
    TaskIDConstraintTypeIDOtherConstraintTypeConstraintDate\
    PredecessorTaskIDSuccessorTaskIDRelationshipTypeIDLagDurationLagCalendarID\
    LevelTaskIDParentTaskID\
    IDNameElementOfCostIDComments\
    CustomFieldIDNameComments\
    ResourceIDCustomFieldIDValue\
    ResourceIDTaskIDBudget_AtCompletion_DollarsBudget_AtCompletion_Hours\
    Estimate_ToComplete_DollarsEstimate_ToComplete_HoursActual_ToDate_DollarsActual_ToDate_Hours\
    PhysicalPercentComplete";

// Two numbers an enumeration value: where it starts in VALUE_TEXTS and where it ends.
pub const VALUE_PLACES: [u32; 122] = [
    // 1 ContractorIDCodeTypeEnum
    0, // DUNS
    4, 4, // DUNS_PLUS_4
    15, 15, // CAGE
    19,
    // 2 DurationUnitsEnum
    19, // DAYS
    23, 23, // HOURS
    28,
    // 3 TaskTypeEnum
    28, // ACTIVITY
    36, 36, // MILESTONE
    45, 45, // SUMMARY
    52, 52, // HAMMOCK
    59,
    // 4 TaskSubtypeEnum
    59, // RISK_MITIGATION_TASK
    79, 79, // SCHEDULE_VISIBILITY_TASK
    103, 103, // SCHEDULE_MARGIN
    118, 118, // CONTRACTUAL_MILESTONE
    139,
    // 5 TaskPlanningLevelEnum
    139, // SUMMARY_LEVEL_PLANNING_PACKAGE
    169, 169, // CONTROL_ACCOUNT
    184, 184, // PLANNING_PACKAGE
    200, 200, // WORK_PACKAGE
    212, 212, // ACTIVITY
    220,
    // 6 EarnedValueTechniqueEnum
    220, // APPORTIONED_EFFORT
    238, 238, // LEVEL_OF_EFFORT
    253, 253, // MILESTONE
    262, 262, // FIXED_0_100
    273, 273, // FIXED_100_0
    284, 284, // FIXED_X_Y
    293, 293, // PERCENT_COMPLETE
    309, 309, // STANDARDS
    318, 318, // UNITS
    323, 323, // OTHER_DISCRETE
    337,
    // 7 TaskConstraintTypeEnum
    337, // START_NO_EARLIER_THAN
    358, 358, // FINISH_NO_EARLIER_THAN
    380, 380, // START_NO_LATER_THAN
    399, 399, // FINISH_NO_LATER_THAN
    419, 419, // MUST_START_ON
    432, 432, // MUST_FINISH_ON
    446, 446, // AS_LATE_AS_POSSIBLE
    465, 465, // SHOULD_START_NO_LATER_THAN
    491, 491, // SHOULD_FINISH_NO_LATER_THAN
    518, 518, // SHOULD_START_ON
    533, 533, // SHOULD_FINISH_ON
    549, 549, // RESOURCE_LEVELING_START_DELAY
    578, 578, // RESOURCE_LEVELING_FINISH_DELAY
    608, 608, // DEADLINE
    616, 616, // OTHER
    621,
    // 8 TaskRelationshipTypeEnum
    621, // FINISH_TO_START
    636, 636, // START_TO_START
    650, 650, // FINISH_TO_FINISH
    666, 666, // START_TO_FINISH
    681,
    // 9 ElementOfCostEnum
    681, // LABOR
    686, 686, // MATERIAL
    694, 694, // OTHER_DIRECT_COSTS
    712, 712, // SUBCONTRACT
    723,
    // 10 CustomFieldEnum
    723, // FIELD_01
    731, 731, // FIELD_02
    739, 739, // FIELD_03
    747, 747, // FIELD_04
    755, 755, // FIELD_05
    763, 763, // FIELD_06
    771, 771, // FIELD_07
    779, 779, // FIELD_08
    787, 787, // FIELD_09
    795, 795, // FIELD_10
    803,
];

// The values one behind the other, in order.
pub const VALUE_TEXTS: [u8; 803] = *b"\
    DUNSDUNS_PLUS_4CAGE\
    DAYSHOURS\
    ACTIVITYMILESTONESUMMARYHAMMOCK\
    RISK_MITIGATION_TASKSCHEDULE_VISIBILITY_TASKSCHEDULE_MARGINCONTRACTUAL_MILESTONE\
    SUMMARY_LEVEL_PLANNING_PACKAGECONTROL_ACCOUNTPLANNING_PACKAGEWORK_PACKAGEACTIVITY\
    APPORTIONED_EFFORTLEVEL_OF_EFFORTMILESTONEFIXED_0_100FIXED_100_0FIXED_X_YPERCENT_COMPLETE\
    STANDARDSUNITSOTHER_DISCRETE\
    START_NO_EARLIER_THANFINISH_NO_EARLIER_THANSTART_NO_LATER_THANFINISH_NO_LATER_THAN\
    MUST_START_ONMUST_FINISH_ONAS_LATE_AS_POSSIBLESHOULD_START_NO_LATER_THAN\
    SHOULD_FINISH_NO_LATER_THANSHOULD_START_ONSHOULD_FINISH_ONRESOURCE_LEVELING_START_DELAY\
    RESOURCE_LEVELING_FINISH_DELAYDEADLINEOTHER\
    FINISH_TO_STARTSTART_TO_STARTFINISH_TO_FINISHSTART_TO_FINISH\
    LABORMATERIALOTHER_DIRECT_COSTSSUBCONTRACT\
    FIELD_01FIELD_02FIELD_03FIELD_04FIELD_05FIELD_06FIELD_07FIELD_08FIELD_09FIELD_10";

// What stands in file 0.
pub const FILE_TYPE: [u8; 39] = *b"IPMDAR_SCHEDULE_PERFORMANCE_DATASET/1.0";
