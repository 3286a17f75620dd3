// What the calls write is tested by the rows of tests/program/lines.rows.
