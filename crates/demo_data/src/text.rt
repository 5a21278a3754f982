// The script of the demonstration: it loads the three files, and asks for the rows of one customer.
ghost use Rattle.std.specs.Prelude.{◌≡◌};
ghost use Rattle.demo_data.specs.Demo.{demo_script};

const SCRIPT: &str = concat!(
    "CREATE TABLE C (K INTEGER NOT NULL, G INTEGER);\n",
    "CREATE TABLE O (K INTEGER NOT NULL, C INTEGER);\n",
    "CREATE TABLE L (O INTEGER, Q INTEGER);\n",
    "LOAD 'c.csv' INTO C;\n",
    "LOAD 'o.csv' INTO O;\n",
    "LOAD 'l.csv' INTO L;\n",
    "CREATE INDEX CK ON C (K);\n",
    "CREATE INDEX OK ON O (K);\n",
    "CREATE INDEX OC ON O (C);\n",
    "CREATE INDEX LO ON L (O);\n",
    "SELECT C.K, O.K, L.Q FROM C, O, L WHERE C.K = O.C AND O.K = L.O AND C.K = 13 AND L.Q = 13;\n",
);

/// The script of the demonstration, each statement a line.
pub fn script() -> &'static [u8]
    ensures { result.now ≡ demo_script }
{
    SCRIPT.as_bytes()
}
