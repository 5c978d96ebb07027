// The matrix of the 1965 table: the coefficients b2 to b8 of a column, in doubles.
ghost use Rattle.std.specs.Prelude.{◌≡◌, ◌≤◌};
ghost use Rattle.plan.specs.Matrix.{first_column, last_column};
ghost use Rattle.plan.specs.Charge.{from_ten_millionths};

// The columns that are carried, in hundredths, how many they are, and how many coefficients each has.
pub const FIRST_COLUMN: u32 = 36;

pub const LAST_COLUMN: u32 = 52;

pub const COLUMNS: usize = 17;

pub const COEFFICIENTS: usize = 7;

// Exhibit H of document 003: a row for each column, the coefficients b2 to b8 in ten-millionths.
const MATRIX: [[i32; COEFFICIENTS]; COLUMNS] = [
    // .36
    [6988077, 1534788, -2401878, 2446196, -935920, 156192, -9676],
    // .37
    [6699527, 362174, -1052290, 1558492, -643880, 109835, -6831],
    // .38
    [6373082, -619243, 65091, 850057, -426207, 78055, -5046],
    // .39
    [6000823, -1393633, 963798, 270763, -250111, 53088, -3703],
    // .40
    [5578036, -1952433, 1636623, -183729, -108692, 32798, -2603],
    // .41
    [5105354, -2297982, 2072574, -497446, -8845, 18417, -1828],
    // .42
    [4520075, -2252639, 2077841, -572532, 25717, 12534, -1473],
    // .43
    [3848930, -1929981, 1803976, -498168, 20876, 11522, -1341],
    // .44
    [3140541, -1462885, 1387943, -343862, -6725, 13635, -1375],
    // .45
    [2380330, -828200, 811232, -97579, -61649, 19723, -1634],
    // .46
    [1540083, 62860, -37170, 308102, -165737, 33337, -2345],
    // .47
    [688215, 1034968, -973794, 767784, -286993, 49637, -3220],
    // .48
    [-330425, 2511240, -2463034, 1543364, -502972, 80085, -4926],
    // .49
    [-1339706, 4013138, -3983194, 2338214, -725095, 111496, -6690],
    // .50
    [
        -2502708, 5970000, -5988208, 3401507, -1025966, 154505, -9130,
    ],
    // .51
    [
        -3651269, 7926783, -7988756, 4460618, -1325207, 197223, -11549,
    ],
    // .52
    [
        -4911550, 10191766, -10283315, 5666651, -1663803, 245276, -14256,
    ],
];

// A coefficient of so many ten-millionths.
fn coefficient(ten_millionths: i32) -> f64
    ensures { result ≡ from_ten_millionths ten_millionths }
{
    f64::from(ten_millionths) / 10000000.0
}

// A column that is carried, in hundredths.
#[derive(Clone, Copy)]
pub struct Column {
    pub hundredths: u32,
    pub ghost least: { first_column ≤ hundredths },
    pub ghost most: { hundredths ≤ last_column },
}

impl Column {
    ghost use Rattle.std.specs.Prelude.{SomeIff, option_map};
    ghost use Rattle.table1965.specs.Rows.{row_double};

    // The column of any hundredths, if it is carried.
    pub fn new(hundredths: u32) -> Option<Column>
        ensures { SomeIff (option_map (λ column. column.hundredths) result)
            ((first_column ≤ hundredths) × (hundredths ≤ last_column)) hundredths }
    {
        if (FIRST_COLUMN..=LAST_COLUMN).contains(&hundredths) {
            Some(Column { hundredths })
        } else {
            None
        }
    }

    // Its row: b2 to b8.
    pub fn row(self) -> [f64; COEFFICIENTS]
        ensures { result ≡ row_double self.hundredths }
    {
        // By a reference: taken by value the matrix is made on the stack at each call.
        let rows = &MATRIX;
        rows[(self.hundredths - FIRST_COLUMN) as usize].map(coefficient)
    }
}
