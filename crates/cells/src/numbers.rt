// The cells, by the names of the elements and helper variables of A/52 and of TS 102 366. A number in brackets says of how many
// cells a name is the first. Written by tools/cells.py.

// one more than the number of the block, 0 outside of blocks: the block part of a record is one less
pub const BLOCK: usize = 1;

// the block, from 0
pub const BLK: usize = 2;

// the channel, from 0
pub const CH: usize = 3;

// a band or sub-band
pub const BND: usize = 4;

// a delta segment, from 0
pub const SEG: usize = 5;

// a slot: the channels 0 to 4, coupling 5, LFE 6
pub const SLOT: usize = 6;

// a coupling sub-band, counted from the first of all
pub const SUB: usize = 7;

pub const SYNCWORD: usize = 32;

pub const STRMTYP: usize = 33;

pub const SUBSTREAMID: usize = 34;

pub const FRMSIZ: usize = 35;

pub const FSCOD: usize = 36;

pub const NUMBLKSCOD: usize = 37;

// the number of blocks, 1, 2, 3 or 6
pub const NUMBLKS: usize = 38;

pub const ACMOD: usize = 39;

// the number of full bandwidth channels
pub const NFCHANS: usize = 40;

pub const LFEON: usize = 41;

pub const BSID: usize = 42;

pub const COMPRE: usize = 43;

pub const COMPR2E: usize = 44;

pub const CHANMAPE: usize = 45;

pub const MIXMDATE: usize = 46;

pub const LFEMIXLEVCODE: usize = 47;

pub const PGMSCLE: usize = 48;

pub const PGMSCL2E: usize = 49;

pub const EXTPGMSCLE: usize = 50;

pub const MIXDEF: usize = 51;

pub const MIXDEFLEN: usize = 52;

// where the mixing data begin
pub const MIXSTART: usize = 53;

// where those of their bits end that are read as elements
pub const MIXEND: usize = 54;

// how many bits these are
pub const MIXUSED: usize = 55;

// how many bits the mixing data have
pub const MIXBITS: usize = 56;

pub const MIXDATA2E: usize = 57;

// extpgmlscle and the flags like it
pub const SCALE_EXISTS: usize = 58;

pub const ADDCHE: usize = 59;

pub const MIXDATA3E: usize = 60;

pub const ADDSPCHDATE: usize = 61;

pub const ADDSPCHDAT1E: usize = 62;

pub const PANINFOE: usize = 63;

pub const PANINFO2E: usize = 64;

pub const FRMMIXCFGINFOE: usize = 65;

pub const BLKMIXCFGINFOE: usize = 66;

pub const INFOMDATE: usize = 67;

pub const AUDPRODIE: usize = 68;

pub const AUDPRODI2E: usize = 69;

pub const BLKID: usize = 70;

pub const ADDBSIE: usize = 71;

pub const ADDBSIL: usize = 72;

pub const EXPSTRE: usize = 73;

pub const AHTE: usize = 74;

pub const SNROFFSTSTR: usize = 75;

pub const TRANSPROCE: usize = 76;

pub const BLKSWE: usize = 77;

pub const DITHFLAGE: usize = 78;

pub const BAMODE: usize = 79;

pub const FRMFGAINCODE: usize = 80;

pub const DBAFLDE: usize = 81;

pub const SKIPFLDE: usize = 82;

pub const SPXATTENE: usize = 83;

// [6] by block
pub const CPLSTRE: usize = 84;

// [6] cplinu by block
pub const CPLINUS: usize = 90;

pub const NCPLBLKS: usize = 96;

// [6] by block
pub const CPLEXPSTR: usize = 97;

// [48] by block and channel
pub const CHEXPSTR: usize = 103;

// [6] by block
pub const LFEEXPSTR: usize = 151;

pub const FRMCPLEXPSTR: usize = 157;

pub const FRMCHEXPSTR: usize = 158;

pub const CONVEXPSTRE: usize = 159;

pub const NCPLREGS: usize = 160;

// [5] by channel
pub const NCHREGS: usize = 161;

pub const NLFEREGS: usize = 166;

// [7] by slot
pub const AHTINU: usize = 167;

// [7] whether the mantissas of a slot of the adaptive hybrid transform were read in an earlier block, by slot
pub const AHT_READ: usize = 174;

pub const FRMFSNROFFST: usize = 181;

pub const CHINTRANSPROC: usize = 182;

pub const CHINSPXATTEN: usize = 183;

pub const BLKSTRTINFOE: usize = 184;

// the width of a span
pub const WIDTH: usize = 185;

// [6] by block
pub const BLOCK_STARTS: usize = 186;

pub const DYNRNGE: usize = 192;

pub const DYNRNG2E: usize = 193;

pub const SPXSTRE: usize = 194;

pub const SPXINU: usize = 195;

// [5] by channel
pub const CHINSPX: usize = 196;

pub const SPXBEGF: usize = 201;

pub const SPXENDF: usize = 202;

// spx_begin_subbnd
pub const SPX_BEGIN: usize = 203;

// spx_end_subbnd
pub const SPX_END: usize = 204;

pub const SPXBNDSTRCE: usize = 205;

// [17] by sub-band
pub const SPXBNDSTRC: usize = 206;

// how many blocks use spectral extension
pub const SPX_BLOCKS: usize = 223;

pub const NSPXBNDS: usize = 224;

// [5] by channel
pub const FIRSTSPXCOS: usize = 225;

pub const SPXCOE: usize = 230;

// of the present block
pub const CPLINU: usize = 231;

pub const ECPLINU: usize = 232;

// [5] by channel
pub const CHINCPL: usize = 233;

pub const PHSFLGINU: usize = 238;

pub const CPLBEGF: usize = 239;

pub const CPLENDF: usize = 240;

// the first sub-band past the coupling range: cplendf + 3
pub const CPL_SUBND_END: usize = 241;

pub const NCPLSUBND: usize = 242;

pub const CPLBNDSTRCE: usize = 243;

// [18] by sub-band
pub const CPLBNDSTRC: usize = 244;

pub const NCPLBND: usize = 262;

// how many blocks use coupling
pub const CPL_BLOCKS: usize = 263;

// [5] by channel
pub const FIRSTCPLCOS: usize = 264;

pub const FIRSTCPLLEAK: usize = 269;

// [5] by channel
pub const CPLCOE: usize = 270;

// whether a coupling coordinate of the two channels is sent
pub const PHSFLGE: usize = 275;

pub const REMATSTR: usize = 276;

pub const NREMATBD: usize = 277;

// [5] by channel
pub const CHBWCOD: usize = 278;

// [5] whether chbwcod was sent, by channel
pub const CHBWSENT: usize = 283;

// cplstrtmant, the first bin of coupling
pub const CPLSTRT: usize = 288;

// cplendmant, the first bin past coupling
pub const CPLEND: usize = 289;

// [5] endmant, the first bin past each channel
pub const ENDMANT: usize = 290;

// the absolute exponent of a set
pub const ABSEXP: usize = 295;

// the first bin of the coupling exponents that are held
pub const HELDSTRT: usize = 296;

// [7] the first bin past the exponents that are held, 0 for none, by slot
pub const HELDEND: usize = 297;

pub const BAIE: usize = 304;

// whether the five parameters below were ever sent
pub const BAI_SENT: usize = 305;

pub const SDCYCOD: usize = 306;

pub const FDCYCOD: usize = 307;

pub const SGAINCOD: usize = 308;

pub const DBPBCOD: usize = 309;

pub const FLOORCOD: usize = 310;

pub const SNROFFSTE: usize = 311;

pub const CSNROFFST: usize = 312;

pub const CPLFLEAK: usize = 313;

pub const CPLSLEAK: usize = 314;

pub const BLKFSNROFFST: usize = 315;

// [7] by slot
pub const FSNROFFST: usize = 316;

pub const FGAINCODE: usize = 323;

// [7] by slot
pub const FGAINCOD: usize = 324;

pub const CONVSNROFFSTE: usize = 331;

pub const CPLLEAKE: usize = 332;

pub const DELTBAIE: usize = 333;

// [6] the delta code by slot
pub const DELTBAE: usize = 334;

// deltnseg or cpldeltnseg
pub const NSEG: usize = 340;

// [6] the number of segments in use by slot, 0 for none (one more than the element says)
pub const DELTNSEG: usize = 341;

// [48] by slot and segment
pub const DELTOFFST: usize = 347;

// [48] by slot and segment
pub const DELTLEN: usize = 395;

// [48] by slot and segment
pub const DELTBA: usize = 443;

pub const SKIPLE: usize = 491;

pub const SKIPL: usize = 492;

// [6] by block
pub const MANTISSA_STARTS: usize = 493;

// [8] what the walk of a block's mantissas tells: its GAQ tags, and the bits of each slot
pub const TAGS: usize = 499;

// [48] the bits of the slots, by block, in rows of eight
pub const SLOT_BITS: usize = 507;

// the GAQ tags so far
pub const AHT_TAGS: usize = 555;

// the bit after the last block
pub const AUDIO_END: usize = 556;

// the bit after the frame
pub const FRAME_END: usize = 557;

// how many bits follow the audio
pub const AFTER_AUDIO: usize = 558;

// auxdatae, looked at ahead
pub const AUXDATAE: usize = 559;

// the bit after auxdatae
pub const AFTER_AUXDATAE: usize = 560;

pub const AUXDATAL: usize = 561;
