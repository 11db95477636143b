//! The list of all numbers.

/// The first lines of all texts, by rising numbers.
pub const LIST: &str = "\
1    a message's bytes end inside a field
2    a number of the wire is too long
3    a field of the wire is a group
4    a field of the wire has a type that there isn't
5    a field of the wire has a number that no field has
11   a row isn't a list of fields
12   a row's lengths reach past its values
13   a row has more than 256 columns
14   a row has more than 2^24 bytes
21   an event isn't a list of fields
22   an event has a message twice
23   an event's type isn't read
24   a text of an event isn't UTF-8
25   a row change isn't whole
31   a position isn't of MySQL's GTIDs
32   a position's part has no uuid
33   a position's numbers can't be read
35   a position's uuid has no colon behind it
36   a position has more than 1048576 bytes
41   a key range doesn't start below its end
43   a row has NULL under its vindex
44   a row has no number in range under its vindex
51   the workflow file isn't JSON
52   the workflow file isn't of the wanted form
53   a column that the workflow names isn't there
54   a column of the workflow has an unfit type
55   a rule of the workflow can't be read or used
56   the workflow has none or too many of something
57   streams keep different columns of a table
61   a row has NULL in its key
62   a row's key has a value that is no number in range
71   another stream's row stands at a key
72   memory was refused
81   a feed's message is cut short
82   a feed has a bad event or message
83   a transaction has no position
84   a group's position diverges
85   a table's columns aren't those of the workflow
86   a row stands before any FIELD of its table
87   a row has another width than the FIELD of its table
88   a feed ends inside a transaction
89   a position isn't of the feed's one shard
90   a row has no key, or the filter has no answer for it
91   a feed has no group of this number
92   a BEGIN or a row stands where it can't
93   a feed isn't hexadecimal text
94   a position can't be read
95   a feed has more than 2^31 - 1 bytes
101  a group is offered too early
102  no group is read that could be applied
103  the open snapshot is reached
104  all tables are copied
105  a snapshot is open already
106  a snapshot would be behind what is applied
107  a snapshot would be of a group that isn't read
108  no snapshot is open
109  the open snapshot isn't reached yet
111  boards are of different workflows
112  a board read another group of this number
113  a stream of two boards read different groups
115  the workflow has no such stream
116  bytes are no checkpoint of the workflow
117  a checkpoint's rows aren't those of the feed
118  no group of the feed has a checkpoint's position
119  there aren't as many feeds as streams
120  a line of the script is no step
121  a line of a dump can't stand there
123  rows of a table that the workflow lacks would be lost
124  a line is no request of a session
125  the workflow has no such table
126  a key isn't one of its table
127  a feed's file is another one, or was cut
128  a feed doesn't reach the position of --until
129  a file changed before it could be replaced
131  a file can't be read
132  a file or standard output can't be written
133  a line of a text isn't as `show` prints it
140  a file is no binary log
141  a binary log is cut short
142  an event of a binary log is smaller than its head
143  an event of a binary log has another checksum
144  a binary log has no format description of version 4
145  a binary log has checksums of another kind
146  a body of a binary log is cut short
147  a row of a binary log doesn't have all columns
148  a table of a binary log has other columns
149  a column of a binary log has another type
150  a value of a binary log is none of its type
151  a binary log has a statement that may change rows
152  a statement alters a table that has had rows
153  a binary log is compressed or encrypted
154  a binary log tells of an incident
155  a binary log has an event that isn't known
156  an event of a binary log can't stand there
157  a transaction of a binary log has no GTID
158  a position of a binary log goes back
159  a binary log doesn't begin where it should
";
