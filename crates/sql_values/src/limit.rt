// The limits of the whole product: their names, their words and their figures. Nothing here tests a number against them.
ghost use Rattle.std.specs.Prelude.{◌≡◌};
ghost use Rattle.sql_values.specs.Limits as spec;
ghost use Rattle.sql_values.specs.LimitNames.{limit_word};

/// A limit, as a refusal names it.
#[derive(Clone, Copy)]
pub enum LimitName {
    /// Bytes of a script.
    Script,
    /// Bytes of a file.
    File,
    /// Tables of a database.
    Tables,
    /// Columns of a table.
    Columns,
    /// Characters of a VARCHAR.
    Length,
    /// Rows of a table.
    Rows,
    /// Words of all tables: the sum of rows times columns.
    Words,
    /// Different texts of a database.
    Texts,
    /// Bytes of these texts.
    TextBytes,
    /// Relations of a query.
    Relations,
    /// Columns that a query names.
    Projection,
    /// Axes of a grid.
    Axes,
    /// Combinations of one row from each relation of a query.
    Product,
    /// Levels of an axis.
    Levels,
    /// Points of a grid.
    Points,
    /// A threshold, in percent.
    Threshold,
    /// How many levels are given where a grid asks for one an axis.
    Coordinates,
    /// One of these levels.
    Level,
    /// Plans that an audit tries.
    Plans,
}

impl LimitName {
    /// The word that stands for the limit in a refusal.
    pub fn word(self) -> &'static str
        ensures { result.now ≡ limit_word self }
    {
        match self {
            LimitName::Script => "script",
            LimitName::File => "file",
            LimitName::Tables => "tables",
            LimitName::Columns => "columns",
            LimitName::Length => "length",
            LimitName::Rows => "rows",
            LimitName::Words => "words",
            LimitName::Texts => "texts",
            LimitName::TextBytes => "textbytes",
            LimitName::Relations => "relations",
            LimitName::Projection => "projection",
            LimitName::Axes => "axes",
            LimitName::Product => "product",
            LimitName::Levels => "levels",
            LimitName::Points => "points",
            LimitName::Threshold => "threshold",
            LimitName::Coordinates => "coordinates",
            LimitName::Level => "level",
            LimitName::Plans => "plans",
        }
    }
}

/// The most bytes of a script.
pub const MAX_SCRIPT_BYTES: u64 = 16777216;

/// The most bytes of one file.
pub const MAX_FILE_BYTES: u64 = 268435456;

/// The most tables of a database.
pub const MAX_TABLES: usize = 64;

/// The most columns of a table.
pub const MAX_COLUMNS: usize = 32;

/// The least length of a VARCHAR, in characters.
pub const MIN_LENGTH: u64 = 1;

/// The greatest length of a VARCHAR, in characters.
pub const MAX_LENGTH: u64 = 65535;

/// The most rows of a table.
pub const MAX_ROWS: u64 = 4194304;

/// The most words of all tables together: the sum of rows times columns.
pub const MAX_WORDS: u64 = 33554432;

/// The most different texts of a database.
pub const MAX_TEXTS: u64 = 16777216;

/// The most bytes of these texts together.
pub const MAX_TEXT_BYTES: u64 = 268435456;

/// The most relations of a query.
pub const MAX_RELATIONS: usize = 6;

/// The most columns that a query names.
pub const MAX_PROJECTION: usize = 256;

/// The most parameters of a query: each has a sign in the script, which has at most so many bytes.
pub const MAX_PARAMETERS: u64 = 16777216;

/// The most axes of a grid.
pub const MAX_AXES: usize = 6;

/// The most combinations of one row from each relation of a query: 2^100.
pub const MAX_PRODUCT: u128 = 1267650600228229401496703205376;

/// The least number of levels of an axis.
pub const MIN_LEVELS: u64 = 2;

/// The greatest number of levels of an axis.
pub const MAX_LEVELS: u64 = 25;

/// The most points of a grid.
pub const MAX_POINTS: u64 = 4096;

/// The greatest threshold, in percent.
pub const MAX_THRESHOLD: u64 = 1000;

/// The threshold that holds where none is given, in percent.
pub const DEFAULT_THRESHOLD: u64 = 20;

/// The most plans that an audit tries.
pub const MAX_PLANS: u64 = 20000;

/// The most contours of a bouquet.
pub const MAX_CONTOURS: usize = 128;

/// The most that a contour costs: 2^114.
pub const MAX_CONTOUR_COST: u128 = 20769187434139310514121985316880384;

/// The most bouquets that take turns side by side.
pub const MAX_JOBS: usize = 64;

/// The law of the limits: each constant is the figure of the definitions.
pub fn limits_are_as_stated()
    ensures bytes { (MAX_SCRIPT_BYTES ≡ spec.max_script_bytes)
        × (MAX_FILE_BYTES ≡ spec.max_file_bytes) }
    ensures tables { (MAX_TABLES ≡ spec.max_tables) × (MAX_COLUMNS ≡ spec.max_columns) }
    ensures lengths { (MIN_LENGTH ≡ spec.min_length) × (MAX_LENGTH ≡ spec.max_length) }
    ensures rows { (MAX_ROWS ≡ spec.max_rows) × (MAX_WORDS ≡ spec.max_words) }
    ensures texts { (MAX_TEXTS ≡ spec.max_texts) × (MAX_TEXT_BYTES ≡ spec.max_text_bytes) }
    ensures query { (MAX_RELATIONS ≡ spec.max_relations)
        × (MAX_PROJECTION ≡ spec.max_projection) }
    ensures parameters { MAX_PARAMETERS ≡ spec.max_parameters }
    ensures axes { (MAX_AXES ≡ spec.max_axes) × (MAX_PRODUCT ≡ spec.max_product) }
    ensures levels { (MIN_LEVELS ≡ spec.min_levels) × (MAX_LEVELS ≡ spec.max_levels) }
    ensures points { MAX_POINTS ≡ spec.max_points }
    ensures thresholds { (MAX_THRESHOLD ≡ spec.max_threshold)
        × (DEFAULT_THRESHOLD ≡ spec.default_threshold) }
    ensures plans { MAX_PLANS ≡ spec.max_plans }
    ensures contours { (MAX_CONTOURS ≡ spec.max_contours)
        × (MAX_CONTOUR_COST ≡ spec.max_contour_cost) }
    ensures jobs { MAX_JOBS ≡ spec.max_jobs }
{}
