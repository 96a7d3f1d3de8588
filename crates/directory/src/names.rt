// Tags by their names.

pub const NEW_SUBFILE_TYPE: usize = 254;

pub const IMAGE_WIDTH: usize = 256;

pub const IMAGE_LENGTH: usize = 257;

pub const BITS_PER_SAMPLE: usize = 258;

pub const COMPRESSION: usize = 259;

pub const PHOTOMETRIC_INTERPRETATION: usize = 262;

pub const STRIP_OFFSETS: usize = 273;

pub const SAMPLES_PER_PIXEL: usize = 277;

pub const ROWS_PER_STRIP: usize = 278;

pub const STRIP_BYTE_COUNTS: usize = 279;

pub const PLANAR_CONFIGURATION: usize = 284;

pub const SUB_IFDS: usize = 330;

pub const SAMPLE_FORMAT: usize = 339;

pub const CFA_REPEAT_PATTERN_DIM: usize = 33421;

pub const CFA_PATTERN: usize = 33422;

pub const DNG_VERSION: usize = 50706;

pub const DNG_BACKWARD_VERSION: usize = 50707;

pub const CFA_PLANE_COLOR: usize = 50710;

pub const CFA_LAYOUT: usize = 50711;

pub const LINEARIZATION_TABLE: usize = 50712;

pub const BLACK_LEVEL_REPEAT_DIM: usize = 50713;

pub const BLACK_LEVEL: usize = 50714;

pub const BLACK_LEVEL_DELTA_H: usize = 50715;

pub const BLACK_LEVEL_DELTA_V: usize = 50716;

pub const WHITE_LEVEL: usize = 50717;

pub const DEFAULT_CROP_ORIGIN: usize = 50719;

pub const DEFAULT_CROP_SIZE: usize = 50720;

pub const CAMERA_CALIBRATION_1: usize = 50723;

pub const ANALOG_BALANCE: usize = 50727;

pub const AS_SHOT_NEUTRAL: usize = 50728;

pub const ACTIVE_AREA: usize = 50829;

pub const FORWARD_MATRIX_1: usize = 50964;

pub const FORWARD_MATRIX_2: usize = 50965;

pub const ROW_INTERLEAVE_FACTOR: usize = 50975;

pub const OPCODE_LIST_1: usize = 51008;

pub const OPCODE_LIST_2: usize = 51009;

pub const OPCODE_LIST_3: usize = 51022;

pub const COLUMN_INTERLEAVE_FACTOR: usize = 52547;
