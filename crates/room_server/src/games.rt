//! The games of `examples/`, as they stand there: a schedule, and what its replay writes.

/// Two players, shared state, a message each way.
pub const DUEL: [&str; 2] = [
    "class State\n\
    field players map Player\n\
    field turn number\n\
    class Player\n\
    field name string\n\
    field health uint8\n\
    root State\n\
    process proc00001\n\
    room duel max 2 seat 15000 patch 50 keep 0\n\
    events\n\
    at 0\n\
    ask 1 /matchmake/joinOrCreate/duel {} room00001 sess00001\n\
    open 11 /proc00001/room00001?sessionId=sess00001 token0001\n\
    frame 11 0a\n\
    ask 2 /matchmake/joinOrCreate/duel {} room00002 sess00002\n\
    open 12 /proc00001/room00001?sessionId=sess00002 token0002\n\
    frame 12 0a\n\
    act room00001 makefor 0 0\n\
    act room00001 put 0 0 #1\n\
    act room00001 make 1\n\
    act room00001 put 2 0 'ada\n\
    act room00001 put 2 1 100\n\
    act room00001 putkey 1 'sess00001 #2\n\
    act room00001 make 1\n\
    act room00001 put 3 0 'bob\n\
    act room00001 put 3 1 100\n\
    act room00001 putkey 1 'sess00002 #3\n\
    act room00001 put 0 1 1\n\
    at 50\n\
    tick room00001\n\
    frame 11 0da3686974\n\
    act room00001 put 3 1 88\n\
    act room00001 put 0 1 2\n\
    at 100\n\
    tick room00001\n\
    act room00001 toall 'over -\n\
    drop 12\n\
    tick room00001\n\
    end\n",
    "class State\n\
    field players map Player\n\
    field turn number\n\
    class Player\n\
    field name string\n\
    field health uint8\n\
    root State\n\
    created room00001 duel\n\
    reply 1 {\"room\":{\"clients\":1,\"maxClients\":2,\"name\":\"duel\",\"processId\":\"proc00001\",\"roomId\":\"room00001\"},\"sessionId\":\"sess00001\"}\n\
    joined room00001 sess00001\n\
    send 11 0a09746f6b656e3030303106736368656d61\n\
    reply 2 {\"room\":{\"clients\":2,\"maxClients\":2,\"name\":\"duel\",\"processId\":\"proc00001\",\"roomId\":\"room00001\"},\"sessionId\":\"sess00002\"}\n\
    joined room00001 sess00002\n\
    send 12 0a09746f6b656e3030303206736368656d61\n\
    made room00001 1\n\
    made room00001 2\n\
    made room00001 3\n\
    send 11 0e80018101ff018000a973657373303030303102d5018001a973657373303030303203d501ff0280a36164618164ff0380a3626f628164\n\
    send 12 0e80018101ff018000a973657373303030303102d5018001a973657373303030303203d501ff0280a36164618164ff0380a3626f628164\n\
    message room00001 sess00001 'hit -\n\
    send 11 0f0102ff030158\n\
    send 12 0f0102ff030158\n\
    send 11 0da46f766572\n\
    send 12 0da46f766572\n\
    left room00001 sess00002\n\
    end\n",
];

/// A card that only its owner sees.
pub const HANDS: [&str; 2] = [
    "class State\n\
    field hands map Card\n\
    class Card\n\
    field owner string\n\
    field rank number view\n\
    root State\n\
    process proc00001\n\
    room cards max 2 seat 15000 patch 50 keep 0\n\
    events\n\
    at 0\n\
    ask 1 /matchmake/joinOrCreate/cards {} room00001 sess00001\n\
    open 11 /proc00001/room00001?sessionId=sess00001 token0001\n\
    frame 11 0a\n\
    ask 2 /matchmake/joinOrCreate/cards {} room00002 sess00002\n\
    open 12 /proc00001/room00001?sessionId=sess00002 token0002\n\
    frame 12 0a\n\
    act room00001 makefor 0 0\n\
    act room00001 put 0 0 #1\n\
    act room00001 make 1\n\
    act room00001 put 2 0 'ada\n\
    act room00001 put 2 1 14\n\
    act room00001 putkey 1 'a #2\n\
    act room00001 make 1\n\
    act room00001 put 3 0 'bob\n\
    act room00001 put 3 1 7\n\
    act room00001 putkey 1 'b #3\n\
    act room00001 viewadd sess00001 2 -1\n\
    act room00001 viewadd sess00002 3 -1\n\
    tick room00001\n\
    act room00001 put 2 1 12\n\
    tick room00001\n\
    end\n",
    "class State\n\
    field hands map Card\n\
    class Card\n\
    field owner string\n\
    field rank number view\n\
    root State\n\
    created room00001 cards\n\
    reply 1 {\"room\":{\"clients\":1,\"maxClients\":2,\"name\":\"cards\",\"processId\":\"proc00001\",\"roomId\":\"room00001\"},\"sessionId\":\"sess00001\"}\n\
    joined room00001 sess00001\n\
    send 11 0a09746f6b656e3030303106736368656d61\n\
    reply 2 {\"room\":{\"clients\":2,\"maxClients\":2,\"name\":\"cards\",\"processId\":\"proc00001\",\"roomId\":\"room00001\"},\"sessionId\":\"sess00002\"}\n\
    joined room00001 sess00002\n\
    send 12 0a09746f6b656e3030303206736368656d61\n\
    made room00001 1\n\
    made room00001 2\n\
    made room00001 3\n\
    send 11 0e8001ff018000a16102d5018001a16203d501ff0280a3616461ff0380a3626f62ff02810e\n\
    send 12 0e8001ff018000a16102d5018001a16203d501ff0280a3616461ff0380a3626f62ff038107\n\
    send 11 0fff02010c\n\
    end\n",
];

/// A room that is full.
pub const FULL: [&str; 2] = [
    "class State\n\
    field round number\n\
    root State\n\
    process proc00001\n\
    room solo max 1 seat 15000 patch 50 keep 0\n\
    events\n\
    at 0\n\
    ask 1 /matchmake/create/solo {} room00001 sess00001\n\
    ask 2 /matchmake/joinById/room00001 {} room00002 sess00002\n\
    ask 3 /matchmake/join/solo {} room00002 sess00002\n\
    at 15000\n\
    ask 4 /matchmake/joinById/room00001 {} room00002 sess00002\n\
    ask 5 /matchmake/joinOrCreate/solo {} room00002 sess00002\n\
    end\n",
    "class State\n\
    field round number\n\
    root State\n\
    created room00001 solo\n\
    reply 1 {\"room\":{\"clients\":1,\"maxClients\":1,\"name\":\"solo\",\"processId\":\"proc00001\",\"roomId\":\"room00001\"},\"sessionId\":\"sess00001\"}\n\
    reply 2 {\"code\":4212,\"error\":\"room room00001 is locked\"}\n\
    reply 3 {\"code\":4211,\"error\":\"no room meets the criteria\"}\n\
    disposed room00001\n\
    reply 4 {\"code\":4212,\"error\":\"room room00001 not found\"}\n\
    created room00002 solo\n\
    reply 5 {\"room\":{\"clients\":1,\"maxClients\":1,\"name\":\"solo\",\"processId\":\"proc00001\",\"roomId\":\"room00002\"},\"sessionId\":\"sess00002\"}\n\
    end\n",
];

/// A drop with a return.
pub const RETURNS: [&str; 2] = [
    "class State\n\
    field round number\n\
    root State\n\
    process proc00001\n\
    room tour max 2 seat 15000 patch 50 keep 20000\n\
    events\n\
    at 0\n\
    ask 1 /matchmake/joinOrCreate/tour {} room00001 sess00001\n\
    open 11 /proc00001/room00001?sessionId=sess00001 token0001\n\
    frame 11 0a\n\
    act room00001 put 0 0 1\n\
    tick room00001\n\
    drop 11\n\
    act room00001 put 0 0 2\n\
    tick room00001\n\
    at 5000\n\
    open 21 /proc00001/room00001?sessionId=sess00001&reconnectionToken=token0001 token0002\n\
    frame 21 0a\n\
    tick room00001\n\
    drop 21\n\
    at 30000\n\
    end\n",
    "class State\n\
    field round number\n\
    root State\n\
    created room00001 tour\n\
    reply 1 {\"room\":{\"clients\":1,\"maxClients\":2,\"name\":\"tour\",\"processId\":\"proc00001\",\"roomId\":\"room00001\"},\"sessionId\":\"sess00001\"}\n\
    joined room00001 sess00001\n\
    send 11 0a09746f6b656e3030303106736368656d61\n\
    send 11 0e8001\n\
    dropped room00001 sess00001\n\
    returned room00001 sess00001\n\
    send 21 0a09746f6b656e3030303206736368656d61\n\
    send 21 0e8002\n\
    dropped room00001 sess00001\n\
    left room00001 sess00001\n\
    disposed room00001\n\
    end\n",
];

/// A list and a set.
pub const BOARD: [&str; 2] = [
    "class State\n\
    field board array string\n\
    field scores set number\n\
    root State\n\
    process proc00001\n\
    room board max 4 seat 15000 patch 50 keep 0\n\
    events\n\
    at 0\n\
    ask 1 /matchmake/joinOrCreate/board {} room00001 sess00001\n\
    open 11 /proc00001/room00001?sessionId=sess00001 token0001\n\
    frame 11 0a\n\
    act room00001 makefor 0 0\n\
    act room00001 put 0 0 #1\n\
    act room00001 push 1 'x\n\
    act room00001 push 1 'o\n\
    act room00001 push 1 'x\n\
    act room00001 makefor 0 1\n\
    act room00001 put 0 1 #2\n\
    act room00001 add 2 10\n\
    tick room00001\n\
    act room00001 setat 1 1 'free\n\
    act room00001 delat 1 0\n\
    act room00001 add 2 20\n\
    act room00001 add 2 20\n\
    tick room00001\n\
    end\n",
    "class State\n\
    field board array string\n\
    field scores set number\n\
    root State\n\
    created room00001 board\n\
    reply 1 {\"room\":{\"clients\":1,\"maxClients\":4,\"name\":\"board\",\"processId\":\"proc00001\",\"roomId\":\"room00001\"},\"sessionId\":\"sess00001\"}\n\
    joined room00001 sess00001\n\
    send 11 0a09746f6b656e3030303106736368656d61\n\
    made room00001 1\n\
    made room00001 2\n\
    send 11 0e80018102ff010a8000a1788001a16f8002a178ff0280000a\n\
    refused present\n\
    send 11 0fff010000a4667265650001a1784002ff02800114\n\
    end\n",
];
