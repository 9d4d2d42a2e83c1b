//! The names of loads and stores as one step, behind those of `names`.

pub const LDADDB: u16 = 358;

pub const LDADDH: u16 = 359;

pub const LDADD: u16 = 360;

pub const LDADDAB: u16 = 361;

pub const LDADDAH: u16 = 362;

pub const LDADDA: u16 = 363;

pub const LDADDLB: u16 = 364;

pub const LDADDLH: u16 = 365;

pub const LDADDL: u16 = 366;

pub const LDADDALB: u16 = 367;

pub const LDADDALH: u16 = 368;

pub const LDADDAL: u16 = 369;

pub const LDCLRB: u16 = 370;

pub const LDCLRH: u16 = 371;

pub const LDCLR: u16 = 372;

pub const LDCLRAB: u16 = 373;

pub const LDCLRAH: u16 = 374;

pub const LDCLRA: u16 = 375;

pub const LDCLRLB: u16 = 376;

pub const LDCLRLH: u16 = 377;

pub const LDCLRL: u16 = 378;

pub const LDCLRALB: u16 = 379;

pub const LDCLRALH: u16 = 380;

pub const LDCLRAL: u16 = 381;

pub const LDEORB: u16 = 382;

pub const LDEORH: u16 = 383;

pub const LDEOR: u16 = 384;

pub const LDEORAB: u16 = 385;

pub const LDEORAH: u16 = 386;

pub const LDEORA: u16 = 387;

pub const LDEORLB: u16 = 388;

pub const LDEORLH: u16 = 389;

pub const LDEORL: u16 = 390;

pub const LDEORALB: u16 = 391;

pub const LDEORALH: u16 = 392;

pub const LDEORAL: u16 = 393;

pub const LDSETB: u16 = 394;

pub const LDSETH: u16 = 395;

pub const LDSET: u16 = 396;

pub const LDSETAB: u16 = 397;

pub const LDSETAH: u16 = 398;

pub const LDSETA: u16 = 399;

pub const LDSETLB: u16 = 400;

pub const LDSETLH: u16 = 401;

pub const LDSETL: u16 = 402;

pub const LDSETALB: u16 = 403;

pub const LDSETALH: u16 = 404;

pub const LDSETAL: u16 = 405;

pub const LDSMAXB: u16 = 406;

pub const LDSMAXH: u16 = 407;

pub const LDSMAX: u16 = 408;

pub const LDSMAXAB: u16 = 409;

pub const LDSMAXAH: u16 = 410;

pub const LDSMAXA: u16 = 411;

pub const LDSMAXLB: u16 = 412;

pub const LDSMAXLH: u16 = 413;

pub const LDSMAXL: u16 = 414;

pub const LDSMAXALB: u16 = 415;

pub const LDSMAXALH: u16 = 416;

pub const LDSMAXAL: u16 = 417;

pub const LDSMINB: u16 = 418;

pub const LDSMINH: u16 = 419;

pub const LDSMIN: u16 = 420;

pub const LDSMINAB: u16 = 421;

pub const LDSMINAH: u16 = 422;

pub const LDSMINA: u16 = 423;

pub const LDSMINLB: u16 = 424;

pub const LDSMINLH: u16 = 425;

pub const LDSMINL: u16 = 426;

pub const LDSMINALB: u16 = 427;

pub const LDSMINALH: u16 = 428;

pub const LDSMINAL: u16 = 429;

pub const LDUMAXB: u16 = 430;

pub const LDUMAXH: u16 = 431;

pub const LDUMAX: u16 = 432;

pub const LDUMAXAB: u16 = 433;

pub const LDUMAXAH: u16 = 434;

pub const LDUMAXA: u16 = 435;

pub const LDUMAXLB: u16 = 436;

pub const LDUMAXLH: u16 = 437;

pub const LDUMAXL: u16 = 438;

pub const LDUMAXALB: u16 = 439;

pub const LDUMAXALH: u16 = 440;

pub const LDUMAXAL: u16 = 441;

pub const LDUMINB: u16 = 442;

pub const LDUMINH: u16 = 443;

pub const LDUMIN: u16 = 444;

pub const LDUMINAB: u16 = 445;

pub const LDUMINAH: u16 = 446;

pub const LDUMINA: u16 = 447;

pub const LDUMINLB: u16 = 448;

pub const LDUMINLH: u16 = 449;

pub const LDUMINL: u16 = 450;

pub const LDUMINALB: u16 = 451;

pub const LDUMINALH: u16 = 452;

pub const LDUMINAL: u16 = 453;

pub const SWPB: u16 = 454;

pub const SWPH: u16 = 455;

pub const SWP: u16 = 456;

pub const SWPAB: u16 = 457;

pub const SWPAH: u16 = 458;

pub const SWPA: u16 = 459;

pub const SWPLB: u16 = 460;

pub const SWPLH: u16 = 461;

pub const SWPL: u16 = 462;

pub const SWPALB: u16 = 463;

pub const SWPALH: u16 = 464;

pub const SWPAL: u16 = 465;

pub const CASB: u16 = 466;

pub const CASH: u16 = 467;

pub const CAS: u16 = 468;

pub const CASAB: u16 = 469;

pub const CASAH: u16 = 470;

pub const CASA: u16 = 471;

pub const CASLB: u16 = 472;

pub const CASLH: u16 = 473;

pub const CASL: u16 = 474;

pub const CASALB: u16 = 475;

pub const CASALH: u16 = 476;

pub const CASAL: u16 = 477;
